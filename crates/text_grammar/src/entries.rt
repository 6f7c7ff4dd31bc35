//! Entries as lines of scripts and of counters spell them.
ghost use Rattle.std.specs.Prelude.{◌∷◌};
ghost use Rattle.text_grammar.specs.Entries.{FillsEntry, SpellsEntry, entry_forms, told_of_entry};
ghost use Rattle.text_grammar.specs.Places.{IsAnswer, told_by};
ghost use Rattle.text_grammar.specs.declared.entries.Reference.TheVariants.{GivenOr};

use crate::faults::LineFault;
use crate::places::{One, Places, Three, Two, exactly, next};
use crate::words::{Words, is};
use turn_ledger::Entry;

/// What an entry's reference is.
#[derive(Clone, Copy, Debug)]
pub enum Reference {
    /// This one.
    Fixed(u64),
    /// The number behind the entry, or this one if there is none.
    GivenOr(u64),
}

/// The entry of this kind: `deposit A M`, `withdraw A M`, `transfer A B M` or `seal A`.
#[tactic(auto, using(crate::proofs::NameLemmas::kinds), unfolding(crate::specs::Entries::SpellsEntry))]
pub fn read_entry(kind: &[u8], words: Words<'_>, reference: Reference) -> Result<Entry, LineFault>
    ensures { IsAnswer (told_by (entry_forms reference) (kind.now ∷ words.entry))
        (SpellsEntry reference (kind.now ∷ words.entry)) result }
{
    if is(kind, "deposit") {
        let (Two(to, amount), reference) = with_reference(words, reference)?;
        Ok(Entry::Deposit {
            to,
            amount,
            reference,
        })
    } else if is(kind, "withdraw") {
        let (Two(from, amount), reference) = with_reference(words, reference)?;
        Ok(Entry::Withdraw {
            from,
            amount,
            reference,
        })
    } else if is(kind, "transfer") {
        let (Three(from, to, amount), reference) = with_reference(words, reference)?;
        Ok(Entry::Transfer {
            from,
            to,
            amount,
            reference,
        })
    } else if is(kind, "seal") {
        let (One(account), reference) = with_reference(words, reference)?;
        Ok(Entry::Seal { account, reference })
    } else {
        Err(LineFault::UnknownCommand)
    }
}

// What the words behind an entry's kind write, and the entry's reference.
#[tactic(auto, unfolding(crate::specs::Entries::FillsEntry))]
fn with_reference<'a, P: Places<'a>>(
    words: Words<'a>,
    reference: Reference,
) -> Result<(P, u64), LineFault>
    ensures { IsAnswer (told_of_entry reference P.fields words.entry)
        (λ both. FillsEntry words.entry P.fields (P.values both.0) reference both.1) result }
{
    match reference {
        Reference::Fixed(fixed) => {
            let places = exactly(words)?;
            Ok((places, fixed))
        }
        Reference::GivenOr(line) => given_or(words, line),
    }
}

// The same if the reference may be given: a number behind the other words is the reference.
#[tactic(auto, using(crate::proofs::EntryLemmas::is_given, crate::proofs::EntryLemmas::not_given, crate::proofs::GrammarLemmas::then_told, crate::proofs::GrammarLemmas::wrong_first), unfolding(crate::specs::Entries::FillsEntry))]
fn given_or<'a, P: Places<'a>>(mut words: Words<'a>, line: u64) -> Result<(P, u64), LineFault>
    ensures { IsAnswer (told_of_entry (GivenOr line) P.fields words.entry)
        (λ both. FillsEntry words.entry P.fields (P.values both.0) (GivenOr line) both.1) result }
{
    if words.are(usize::from(P::count()) + 1) {
        let places = P::take(&mut words)?;
        let given = next(&mut words)?;
        Ok((places, given))
    } else {
        let places = exactly(words)?;
        Ok((places, line))
    }
}
