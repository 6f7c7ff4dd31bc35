//! What is wrong with words that `clap` let through.
use crate::invocation::Origin;
use std::alloc::AllocFailed;
use thiserror::Error;

/// What is wrong with words, or why they don't go together. Of those that don't, the first that
/// holds is answered.
#[derive(Clone, Copy, Debug, PartialEq, Eq, Error)]
pub enum WrongWords {
    /// There is no memory.
    #[error("out of memory")]
    Memory,
    /// `clap` refuses such words by the table of commands.
    #[error("the words are those of no command")]
    Undeclared,
    #[error("a date has the form YYYY-MM-DD, and is a day of the calendar")]
    NoDate,
    #[error("a number is out of range")]
    OutOfRange,
    /// A ledger can't be copied onto itself.
    #[error("NEW is {0}; take another path")]
    NewIs(Origin),
    #[error("a counter's name has 1 to 64 letters, digits, - and _: give it one by NAME=PATH")]
    NoName,
    #[error("two counters have the same name: give one another by NAME=PATH")]
    SameName,
    /// Nobody could say anything.
    #[error("an office needs a --counter or --terminal")]
    NoCounter,
    /// A line has no more than 64 stations.
    #[error("there are more counters than 64")]
    TooManyCounters,
    /// Each counter is that of a station.
    #[error("there are more counters than --stations")]
    TooFewStations,
    /// Only formatting erases anything.
    #[error("--overwrite needs --format")]
    NoFormat,
    /// There is nothing to copy onto, or nothing says how many slots it gets.
    #[error("--migrate needs --device and --slots")]
    MigrateAlone,
    /// Slots are told for nothing.
    #[error("--slots needs --migrate")]
    SlotsAlone,
    /// A file can't be copied onto itself.
    #[error("--migrate needs another path")]
    OnePath,
    /// There is no disk to write over.
    #[error("--overwrite needs --device")]
    OverwriteAlone,
}

impl<T: Drop> From<AllocFailed<T>> for WrongWords {
    fn from(_: AllocFailed<T>) -> WrongWords {
        WrongWords::Memory
    }
}
