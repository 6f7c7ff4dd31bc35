//! The lines of a script as commands.
ghost use Rattle.std.specs.Prelude.{◌≡◌, false, ◌∷◌, ◌==◌, codes, slice_index, IfOk, IfErr, IfSome};
ghost use Rattle.std.specs.Prelude.{OnOk, is_none};
ghost use Rattle.text_grammar.specs.Grammar.{IsRead, Spells, line_fault};
ghost use Rattle.text_grammar.specs.Places.{is_skipped};
ghost use Rattle.text_grammar.specs.Script.{words_of};

use crate::entries::{Reference, read_entry};
use crate::faults::LineFault;
use crate::numbers::Bits;
use crate::places::{Nothing, One, Place, Three, Turns, exactly};
use crate::words::{Words, first_name, is, word};
use std::num::NonZeroU64;
use turn_ledger::Entry;

/// What a line of a script asks for.
#[derive(Clone, Copy, Debug)]
pub enum Command<'a> {
    /// `format K`: make the device an empty journal of K slots.
    Format {
        slots: NonZeroU64,
    },
    /// `open J XBITS UPBITS`: recover the ledger, with a line of J stations.
    Open {
        stations: u64,
        x: Bits<'a>,
        up: Bits<'a>,
    },
    /// `post S KIND ..`: keep an entry for station S.
    Post {
        station: u64,
        entry: Entry,
    },
    /// `turn S`: a turn of station S with the entries that it holds.
    Turn {
        station: u64,
    },
    /// `bits`: show the line.
    Bits,
    /// `balances`: show the accounts.
    Balances,
    /// `crash`: lose the power.
    Crash,
    /// `day M`: the stations take M turns, each in a thread of its own; 1 to
    /// [`DAY_LIMIT`](crate::DAY_LIMIT).
    Day {
        moves: u64,
    },
}

/// The command of a line, or None if the line has no words or is a comment. An entry's reference is
/// the number of its line.
///
/// # Errors
/// [`LineFault`], the first thing that is wrong with the line.
// A part of its caller, since a command is large: a script has many lines, and each would be copied
// on its way.
#[inline(always)]
#[tactic(auto, using(crate::proofs::GrammarLemmas::skipped), unfolding(crate::specs::Grammar::IsRead, crate::specs::Grammar::line_fault))]
pub fn read_command<'a>(line: &'a [u8], number: u64) -> Result<Option<Command<'a>>, LineFault>
    ensures fault { IfErr result (λ fault. line_fault (words_of line.now) ≡ Some fault) }
    ensures sound { OnOk result (line_fault (words_of line.now) ≡ None) }
    ensures skipped { IfOk result (λ found. is_none found ≡ is_skipped (words_of line.now)) }
    ensures command { IfOk result (λ found.
        IfSome found (λ command. Spells (words_of line.now) number command)) }
{
    let mut words = Words::of(line);
    let Some(name) = first_name(&mut words) else {
        return Ok(None);
    };
    Ok(Some(read_named(name, words, number)?))
}

// The command of this name, which begins no comment.
#[tactic(auto, using(crate::proofs::NameLemmas::commands), unfolding(crate::specs::Grammar::IsRead, crate::specs::Grammar::Spells))]
fn read_named<'a>(name: &[u8], words: Words<'a>, line: u64) -> Result<Command<'a>, LineFault>
    requires { (slice_index name.now 0 == 35) ≡ false }
    ensures { IsRead (name.now ∷ words.entry) line result }
{
    if is(name, "format") {
        let One(slots) = exactly(words)?;
        Ok(Command::Format { slots })
    } else if is(name, "open") {
        let Three(stations, x, up) = exactly(words)?;
        Ok(Command::Open { stations, x, up })
    } else if is(name, "post") {
        read_post(words, line)
    } else if is(name, "turn") {
        let One(station) = exactly(words)?;
        Ok(Command::Turn { station })
    } else if is(name, "bits") {
        let Nothing = exactly(words)?;
        Ok(Command::Bits)
    } else if is(name, "balances") {
        let Nothing = exactly(words)?;
        Ok(Command::Balances)
    } else if is(name, "crash") {
        let Nothing = exactly(words)?;
        Ok(Command::Crash)
    } else if is(name, "day") {
        let One(Turns(moves)) = exactly(words)?;
        Ok(Command::Day { moves })
    } else {
        Err(LineFault::UnknownCommand)
    }
}

// An entry for a station; the line's number is its reference.
#[tactic(auto, using(crate::proofs::PostLemmas::posts), unfolding(crate::specs::Grammar::IsRead))]
fn read_post<'a>(mut words: Words<'a>, line: u64) -> Result<Command<'a>, LineFault>
    ensures { IsRead (codes "post" ∷ words.entry) line result }
{
    let station = word(&mut words)?;
    let kind = word(&mut words)?;
    let entry = read_entry(kind, words, Reference::Fixed(line))?;
    let station = u64::read(station)?;
    Ok(Command::Post { station, entry })
}
