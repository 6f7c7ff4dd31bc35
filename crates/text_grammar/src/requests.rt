//! The lines of a counter as requests.
ghost use Rattle.std.specs.Prelude.{◌≡◌, false, ◌∷◌, ◌==◌, slice_index, IfOk, IfErr, IfSome, OnOk};
ghost use Rattle.std.specs.Prelude.{is_none};
ghost use Rattle.text_grammar.specs.Places.{is_skipped};
ghost use Rattle.text_grammar.specs.Requests.{IsRequestRead, SpellsRequest, request_fault};
ghost use Rattle.text_grammar.specs.Script.{words_of};

use crate::entries::{Reference, read_entry};
use crate::faults::LineFault;
use crate::places::{Nothing, One, exactly};
use crate::words::{Words, first_name, is};
use turn_ledger::Entry;

/// What a line of a counter asks for. A counter is a client of an office that stays open: it says
/// one request a line.
#[derive(Clone, Copy, Debug, PartialEq, Eq)]
pub enum Request {
    /// `deposit A M`, `withdraw A M`, `transfer A B M` or `seal A`: post this entry. A number
    /// behind it is its reference; without one it has reference 0.
    Post(Entry),
    /// `balance A`: what account A holds.
    Balance { account: u32 },
    /// `find R`: under which numbers entries of reference R were posted.
    Find { reference: u64 },
    /// `last`: the greatest reference that was posted at this counter.
    Last,
    /// `first R`: references of this counter begin with R.
    First { reference: u64 },
    /// `hello X`: it is answered by the same, so that a client knows which answers are its own.
    Hello { number: u64 },
    /// `copy`: a copy of the ledger is made.
    Copy,
    /// `archive`: all batches by now go to the archive.
    Archive,
    /// `status`: how the office stands.
    Status,
    /// `name`: which counter this is, and of which ledger.
    Name,
    /// `help`: which requests there are.
    Help,
    /// `close`: the office closes.
    Close,
}

/// The request of a line, or None if the line has no words or is a comment. An entry's reference is
/// the number behind it, or 0 if there is none.
///
/// # Errors
/// [`LineFault`], the first thing that is wrong with the line; never `BadBits`.
#[tactic(auto, using(crate::proofs::NameLemmas::skipped_request), unfolding(crate::specs::Requests::IsRequestRead))]
pub fn read_request(line: &[u8]) -> Result<Option<Request>, LineFault>
    ensures fault { IfErr result (λ fault. request_fault (words_of line.now) ≡ Some fault) }
    ensures sound { OnOk result (request_fault (words_of line.now) ≡ None) }
    ensures skipped { IfOk result (λ found. is_none found ≡ is_skipped (words_of line.now)) }
    ensures request { IfOk result (λ found.
        IfSome found (SpellsRequest (words_of line.now))) }
{
    let mut words = Words::of(line);
    let Some(name) = first_name(&mut words) else {
        return Ok(None);
    };
    Ok(Some(read_requested(name, words)?))
}

// The request of this name, which begins no comment.
#[tactic(auto, using(crate::proofs::NameLemmas::requests), unfolding(crate::specs::Requests::IsRequestRead, crate::specs::Requests::SpellsRequest))]
fn read_requested(name: &[u8], words: Words<'_>) -> Result<Request, LineFault>
    requires { (slice_index name.now 0 == 35) ≡ false }
    ensures { IsRequestRead (name.now ∷ words.entry) result }
{
    if is(name, "balance") {
        let One(account) = exactly(words)?;
        Ok(Request::Balance { account })
    } else if is(name, "find") {
        let One(reference) = exactly(words)?;
        Ok(Request::Find { reference })
    } else if is(name, "last") {
        let Nothing = exactly(words)?;
        Ok(Request::Last)
    } else if is(name, "first") {
        let One(reference) = exactly(words)?;
        Ok(Request::First { reference })
    } else if is(name, "hello") {
        let One(number) = exactly(words)?;
        Ok(Request::Hello { number })
    } else if is(name, "copy") {
        let Nothing = exactly(words)?;
        Ok(Request::Copy)
    } else if is(name, "archive") {
        let Nothing = exactly(words)?;
        Ok(Request::Archive)
    } else if is(name, "status") {
        let Nothing = exactly(words)?;
        Ok(Request::Status)
    } else if is(name, "name") {
        let Nothing = exactly(words)?;
        Ok(Request::Name)
    } else if is(name, "help") {
        let Nothing = exactly(words)?;
        Ok(Request::Help)
    } else if is(name, "close") {
        let Nothing = exactly(words)?;
        Ok(Request::Close)
    } else {
        let entry = read_entry(name, words, Reference::GivenOr(0))?;
        Ok(Request::Post(entry))
    }
}
