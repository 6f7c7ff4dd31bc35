//! Why there is no roster, and why a counter has no station.
ghost use Rattle.std.specs.Prelude.{◌≡◌};
ghost use Rattle.ledger_counters.specs.Faults.{is_refusal};

use crate::place::RosterPath;
use std::alloc::{AllocError, AllocFailed};
use std::fmt;
use thiserror::Error;

/// Why the counters of a ledger aren't read or written, or one has no station.
#[derive(Clone, Copy, Debug, PartialEq, Eq, Error)]
pub enum RosterFault {
    #[error("out of memory")]
    Memory,
    /// It is there, and can't be read.
    #[error("it can't be read")]
    Unread,
    /// It can't be written, or not durably.
    #[error("it can't be written")]
    Unwritten,
    /// What is read is no roster.
    #[error("its line {line} isn't that of a file of counters; --counters-anew writes the file anew")]
    NoRoster {
        /// The number of its first line that is wrong, from 1.
        line: u64,
    },
    /// It isn't there, and its ledger has batches.
    #[error("it isn't there, and the ledger has batches: put it back, or write it anew by --counters-anew")]
    Missing,
    /// A disk has no file beside it.
    #[error("the counters of a disk need --counters-file FILE")]
    Disk,
    /// A counter has a name that is none.
    #[error("a counter's name has 1 to 64 letters, digits, - and _: give it one by NAME=PATH")]
    NoName,
    /// All 64 stations have other counters.
    #[error("64 other counters have the stations; --counters-anew forgets them")]
    Full,
}

impl RosterFault {
    /// Whether a rule refuses it, and nothing failed.
    pub fn is_refusal(self) -> bool
        ensures { result ≡ is_refusal self }
    {
        !matches!(
            self,
            RosterFault::Memory | RosterFault::Unread | RosterFault::Unwritten
        )
    }
}

/// What is wrong with the counters of a ledger, and where.
#[derive(Clone, Copy, Debug)]
pub struct CountersFault<'a> {
    pub place: RosterPath<'a>,
    pub cause: RosterFault,
}

/// The path, unless memory is what there is none of, and the cause.
impl fmt::Display for CountersFault<'_> {
    fn fmt<W: fmt::Write>(&self, f: &mut fmt::Formatter<W>) -> fmt::Result {
        let (place, cause) = (self.place, self.cause);
        match cause {
            RosterFault::Memory => write!(f, "{cause}"),
            cause => write!(f, "{place}: {cause}"),
        }
    }
}

impl From<AllocError> for RosterFault {
    fn from(_: AllocError) -> RosterFault {
        RosterFault::Memory
    }
}

impl<T: Drop> From<AllocFailed<T>> for RosterFault {
    fn from(_: AllocFailed<T>) -> RosterFault {
        RosterFault::Memory
    }
}
