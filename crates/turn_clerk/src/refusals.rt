//! Why a turn is not taken, and why a search isn't answered.

use gate_journal::ReadRefusal;
use thiserror::Error;

/// Why a turn was not taken: the first, in this order, that holds.
#[derive(Clone, Copy, Debug, PartialEq, Eq, Error)]
pub enum TurnRefusal {
    /// A device fault was met in an earlier turn. The clerk answers so until its device is opened
    /// again.
    #[error("a device fault was met and the device must be opened again")]
    Faulted,
    /// The line has no station of this number.
    #[error("there is no such station")]
    NoStation,
    /// The station has no privilege.
    #[error("it is not the station's turn")]
    NotPrivileged,
    /// More entries than [`turn_ledger::BATCH_LIMIT`].
    #[error("more entries than a batch holds")]
    TooMany,
    /// There is no memory for the history to grow.
    #[error("out of memory")]
    Memory,
    /// An entry is accepted, and it can't be journaled: no sequence number is left, or no slot is
    /// free and the live bank has the last epoch.
    #[error("there are no more sequence numbers or epochs")]
    Exhausted,
    /// The device failed while the accepted entries were journaled. Whether they stand is told by
    /// opening it again.
    #[error("the device failed")]
    Device,
}

/// Why a search for a reference was not answered: the first, in this order, that holds.
#[derive(Clone, Copy, Debug, PartialEq, Eq, Error)]
pub enum FindRefusal {
    /// A device fault was met in an earlier turn. The clerk answers so until its device is opened
    /// again.
    #[error("a device fault was met and the device must be opened again")]
    Faulted,
    /// What is read isn't what was posted any more, which never happens on an honest device.
    #[error("the record is no longer there")]
    Changed,
    /// A read of the device failed.
    #[error("the device failed")]
    Device,
}

impl From<ReadRefusal> for FindRefusal {
    ghost use Rattle.turn_clerk.specs.Search.{find_refusal_of};
    ghost use Rattle.std.specs.Prelude.{◌≡◌};

    ghost from_gives = { λ refusal found. found ≡ find_refusal_of refusal };

    fn from(refusal: ReadRefusal) -> Self {
        match refusal {
            ReadRefusal::Changed => FindRefusal::Changed,
            ReadRefusal::Device => FindRefusal::Device,
        }
    }
}
