ghost use Rattle.std.specs.Prelude.{◌≡◌};

use gate_journal::{JournalCause, JournalRefusal};
use std::fmt;
use thiserror::Error;

/// Why a device was not opened as a ledger. Out of memory is answered before any device call; of
/// the others the first that holds of the device's image, and a device call that fails ends the
/// opening where it is met.
#[derive(Clone, Copy, Debug, PartialEq, Eq, Error)]
pub enum OpenRefusal {
    /// There is no memory for the ledger. The device wasn't called.
    #[error("out of memory")]
    Memory,
    /// The first sector doesn't begin with `TLDG`, or it is of this layout and no superblock.
    #[error("it holds no ledger")]
    Unformatted,
    /// The journal has another layout than 3: this one.
    #[error("its ledger has version {0}, which isn't known")]
    Version(u16),
    /// The superblock tells of no slots or of more than 1,000,000, or the device has too few
    /// sectors for them.
    #[error("its number of slots is out of range, or it is too short for them")]
    Size,
    /// A slot, counted from 0 in the live bank, or a bank, is damaged: the first that is, for this
    /// cause.
    #[error("damage at {slot}: {cause}")]
    Damaged { slot: u64, cause: Cause },
    /// A call of the device failed; nothing is known of the journal.
    #[error("it can't be read")]
    Device,
}

/// What is wrong with a slot, or, for `Bank`, with a bank, whose number then stands in the place of
/// the slot's. Places are counted from 0.
#[derive(Clone, Copy, Debug, PartialEq, Eq, Error)]
pub enum Cause {
    /// The gate is open and the body's bytes are no record.
    #[error("the body of an open slot is no record")]
    Header,
    /// The body is a record, of another sequence number than the slot's own.
    #[error("the record of a slot has another sequence number")]
    Sequence,
    /// The gate is open, and that of a slot before it isn't.
    #[error("a slot is open behind a closed one")]
    Tail,
    /// No bank's gate is open, the head of an open one isn't sound, both are open with the same
    /// epoch, or the live one's balances are over the limit together, or behind its marks stands a
    /// byte that isn't zero.
    #[error("a bank isn't sound, or none is live")]
    Bank,
    /// The bytes at this place of the record are those of no entry.
    #[error("place {0} of a record is no entry")]
    Entry(u8),
    /// The entry at this place of the record isn't accepted on the ledger before it.
    #[error("the entry at place {0} of a record breaks a rule of the ledger")]
    Verdict(u8),
}

/// The name of a refused opening, as the output of a script has it: its variant's, with its numbers
/// behind it.
#[derive(Clone, Copy, Debug)]
pub struct OpenName(pub OpenRefusal);

impl fmt::Display for OpenName {
    fn fmt<W: fmt::Write>(&self, f: &mut fmt::Formatter<W>) -> fmt::Result {
        match self.0 {
            OpenRefusal::Version(version) => write!(f, "Version {version}"),
            OpenRefusal::Damaged { slot, cause } => {
                write!(f, "Damaged {slot} ")?;
                write_cause(cause, f)
            }
            refusal => write!(f, "{refusal:?}"),
        }
    }
}

fn write_cause<W: fmt::Write>(cause: Cause, f: &mut fmt::Formatter<W>) -> fmt::Result {
    match cause {
        Cause::Entry(place) => write!(f, "Entry {place}"),
        Cause::Verdict(place) => write!(f, "Verdict {place}"),
        cause => write!(f, "{cause:?}"),
    }
}

impl From<JournalCause> for Cause {
    ghost use Rattle.journal_recovery.specs.Journal.{cause_of};

    ghost from_gives = { λ cause made. made ≡ cause_of cause };

    fn from(cause: JournalCause) -> Self {
        match cause {
            JournalCause::Header => Cause::Header,
            JournalCause::Sequence => Cause::Sequence,
            JournalCause::Tail => Cause::Tail,
            JournalCause::Bank => Cause::Bank,
        }
    }
}

impl From<JournalRefusal> for OpenRefusal {
    ghost use Rattle.journal_recovery.specs.Journal.{refusal_of};

    ghost from_gives = { λ refusal made. made ≡ refusal_of refusal };

    fn from(refusal: JournalRefusal) -> Self {
        match refusal {
            JournalRefusal::Unformatted => OpenRefusal::Unformatted,
            JournalRefusal::Version(version) => OpenRefusal::Version(version),
            JournalRefusal::Size => OpenRefusal::Size,
            JournalRefusal::Damaged { slot, cause } => OpenRefusal::Damaged {
                slot,
                cause: Cause::from(cause),
            },
            JournalRefusal::Device => OpenRefusal::Device,
        }
    }
}
