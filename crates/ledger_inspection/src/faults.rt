//! Why ledgers aren't inspected to their end.
ghost use Rattle.std.specs.Prelude.{◌≡◌, false};
ghost use Rattle.ledger_inspection.specs.Faults.{denies_ledger, is_refusal, is_of_reader, IsOfOne};

use crate::wrong::Wrong;
use device_files::FileFault;
use gate_journal::ReadRefusal;
use journal_recovery::OpenRefusal;
use ledger_folder::{ArchiveFault, Part};
use std::alloc::{AllocError, AllocFailed};
use text_streams::{OutputFault, StreamFault};
use thiserror::Error;

/// Why ledgers aren't inspected to their end: one of them, or several as one book.
#[derive(Clone, Copy, Debug, Error)]
pub enum InspectionFault<'a> {
    /// There is no memory.
    #[error("out of memory")]
    Memory,
    /// No ledger is named.
    #[error("no ledger is named")]
    Nothing,
    /// The folder of an archive can't be had, or a ledger in it isn't the one that its name says.
    #[error("{0}")]
    Archive(#[from] ArchiveFault<'a>),
    /// A ledger can't be looked at.
    #[error("{0}: {1}")]
    Unread(Part<'a>, FileFault),
    /// It isn't sound.
    #[error("{0}: {1}")]
    Unsound(Part<'a>, Wrong),
    /// It was sound, and can't be read again.
    #[error("{0}: it can't be read")]
    Lost(Part<'a>),
    /// It was sound, and is another one now.
    #[error("{0}: it changed while it was read")]
    Changed(Part<'a>),
    /// It lists no record from the end of the one before on, but only later ones.
    #[error("{part}: its earliest batch is {first}, and {before} ends before {end}; those between are missing")]
    Gap {
        part: Part<'a>,
        first: u64,
        before: Part<'a>,
        end: u64,
    },
    /// It ends before the one before does.
    #[error("{part}: its next batch is {next}, and that of {before} is {end}; it isn't of the same ledger, or an old copy")]
    Short {
        part: Part<'a>,
        next: u64,
        before: Part<'a>,
        end: u64,
    },
    /// It held something else where the one before ends.
    #[error("{part}: before batch {end}, where {before} ends, it held other balances or seals; it isn't of the same ledger")]
    Differs {
        part: Part<'a>,
        before: Part<'a>,
        end: u64,
    },
    /// A batch that is asked for isn't in the book.
    #[error("{part}: batch {at} is out of reach: the earliest is {first}, and the next one will be {next}")]
    OutOfReach {
        part: Part<'a>,
        at: u64,
        first: u64,
        next: u64,
    },
    /// It isn't sound, and can't be drawn.
    #[error("{0}: {1}\n{2}")]
    Undrawn(Part<'a>, Wrong, StreamFault),
    /// It isn't sound, and can't be read again for the drawing.
    #[error("{0}: {1}\n{0}: it can't be read")]
    Unseen(Part<'a>, Wrong),
    /// The output can't be written.
    #[error("{0}")]
    Output(StreamFault),
}

impl<'a> InspectionFault<'a> {
    /// Whether a rule refuses it, and nothing failed: it is an answer of `check`.
    pub fn is_refusal(self) -> bool
        ensures { result ≡ is_refusal self.entry }
    {
        match self {
            InspectionFault::Unsound(_, wrong) => denies_ledger(wrong.refusal),
            InspectionFault::Archive(ArchiveFault::Empty(_) | ArchiveFault::Foreign(_))
            | InspectionFault::Gap { .. }
            | InspectionFault::Short { .. }
            | InspectionFault::Differs { .. }
            | InspectionFault::OutOfReach { .. } => true,
            _ => false,
        }
    }

    // Whether the output isn't written since its reader went away, who has what it wanted.
    pub(crate) fn is_of_reader(self, is_closed: bool) -> bool
        ensures { result ≡ is_of_reader is_closed self.entry }
    {
        match self {
            InspectionFault::Output(StreamFault::Write) => is_closed,
            _ => false,
        }
    }

    /// A ledger can't be looked at. Out of memory stays out of memory.
    pub fn of_file(part: Part<'a>, fault: FileFault) -> InspectionFault<'a>
        ensures one { IsOfOne part.entry result }
        ensures failed { is_refusal result ≡ false }
    {
        match fault {
            FileFault::Memory => InspectionFault::Memory,
            fault => InspectionFault::Unread(part, fault),
        }
    }

    // It isn't sound. Out of memory stays out of memory.
    pub(crate) fn of_damage(part: Part<'a>, wrong: Wrong) -> InspectionFault<'a> {
        match wrong.refusal {
            OpenRefusal::Memory => InspectionFault::Memory,
            _ => InspectionFault::Unsound(part, wrong),
        }
    }

    // It can't be read again.
    pub(crate) fn of_reading(part: Part<'a>, refusal: ReadRefusal) -> InspectionFault<'a>
        ensures one { IsOfOne part.entry result }
        ensures failed { is_refusal result ≡ false }
    {
        match refusal {
            ReadRefusal::Device => InspectionFault::Lost(part),
            ReadRefusal::Changed => InspectionFault::Changed(part),
        }
    }

    // It isn't printed to its end.
    pub(crate) fn of_printing(
        part: Part<'a>,
        fault: OutputFault<ReadRefusal>,
    ) -> InspectionFault<'a>
        ensures one { IsOfOne part.entry result }
        ensures failed { is_refusal result ≡ false }
    {
        match fault {
            OutputFault::Source(refusal) => InspectionFault::of_reading(part, refusal),
            OutputFault::Stream(fault) => InspectionFault::from(fault),
        }
    }
}

// Whether a refusal denies that there is a ledger.
pub(crate) fn denies_ledger(refusal: OpenRefusal) -> bool
    ensures { result ≡ denies_ledger refusal }
{
    !matches!(refusal, OpenRefusal::Memory | OpenRefusal::Device)
}

impl From<StreamFault> for InspectionFault<'_> {
    ghost use Rattle.std.specs.Prelude.{◌≡◌};
    ghost use Rattle.ledger_inspection.specs.Faults.{of_stream};

    ghost from_gives = { λ stream fault. fault ≡ of_stream stream };

    fn from(fault: StreamFault) -> Self {
        match fault {
            StreamFault::Memory => InspectionFault::Memory,
            fault => InspectionFault::Output(fault),
        }
    }
}

impl From<AllocError> for InspectionFault<'_> {
    fn from(_: AllocError) -> Self {
        InspectionFault::Memory
    }
}

impl<T: Drop> From<AllocFailed<T>> for InspectionFault<'_> {
    fn from(_: AllocFailed<T>) -> Self {
        InspectionFault::Memory
    }
}
