//! Why an office isn't kept open, or ends early.
use crate::counter_fault::CounterFault;
use four_state::LineRefusal;
use journal_recovery::OpenRefusal;
use ledger_counters::{CountersFault, RosterFault};
use ledger_file::LedgerRefusal;
use ledger_folder::ArchiveFault;
use line_lock::OfficeRefusal;
use office_sessions::LiveRefusal;
use std::alloc::AllocError;
use text_streams::StreamFault;
use thiserror::Error;
use turn_clerk::TurnRefusal;

/// Why an office was closed by a fault, or never opened.
#[derive(Clone, Copy, Debug, Error)]
pub enum OfficeFault<'a> {
    /// There is no memory.
    #[error("out of memory")]
    Memory,
    /// The output can't be written.
    #[error("write failed")]
    Write,
    /// A counter's pipe can't be used.
    #[error("{0}")]
    Pipe(#[from] CounterFault<'a>),
    /// There is no ledger at the path that could be opened, or made.
    #[error("{0}: {1}")]
    File(&'a str, LedgerRefusal),
    /// The device holds no sound ledger.
    #[error("{0}: {1}")]
    NoLedger(&'a str, OpenRefusal),
    /// There is no such line.
    #[error("{0}")]
    Line(LineRefusal),
    /// The office wasn't kept open.
    #[error("{0}")]
    Office(LiveRefusal),
    /// A station was refused its turn. What was answered stands.
    #[error("{0}")]
    Refused(TurnRefusal),
    /// The system refused a station its thread.
    #[error("the system refused a thread")]
    Threads,
    /// The archive, or the folder of the copies, can't be had, or what the archive lacks can't be
    /// added to it. What was answered stands in the ledger.
    #[error("{0}")]
    Archive(ArchiveFault<'a>),
    /// The ledger or the archive isn't at its path any more. What was answered stands in what was
    /// open.
    #[error("{0}: it isn't there any more, or another one is; what was answered stands in the one that was open")]
    Lost(&'a str),
    /// Which station each counter has isn't known, or can't be written down.
    #[error("{0}")]
    Counters(CountersFault<'a>),
}

/// Out of memory is reported as out of memory, wherever it was met.
impl From<LiveRefusal> for OfficeFault<'_> {
    fn from(refusal: LiveRefusal) -> Self {
        match refusal {
            LiveRefusal::Memory
            | LiveRefusal::Unsettled
            | LiveRefusal::Office(
                OfficeRefusal::Work(AllocError) | OfficeRefusal::Opening(OpenRefusal::Memory),
            ) => OfficeFault::Memory,
            LiveRefusal::Threads => OfficeFault::Threads,
            LiveRefusal::Office(_) => OfficeFault::Office(refusal),
        }
    }
}

impl<'a> OfficeFault<'a> {
    // Out of memory stays out of memory.
    pub(crate) fn of_file(path: &'a str, refusal: LedgerRefusal) -> OfficeFault<'a> {
        if refusal.is_memory() {
            return OfficeFault::Memory;
        }
        OfficeFault::File(path, refusal)
    }
}

/// Out of memory stays out of memory.
impl<'a> From<CountersFault<'a>> for OfficeFault<'a> {
    fn from(fault: CountersFault<'a>) -> Self {
        match fault.cause {
            RosterFault::Memory => OfficeFault::Memory,
            _ => OfficeFault::Counters(fault),
        }
    }
}

/// Out of memory stays out of memory.
impl<'a> From<ArchiveFault<'a>> for OfficeFault<'a> {
    fn from(fault: ArchiveFault<'a>) -> Self {
        match fault {
            ArchiveFault::Memory => OfficeFault::Memory,
            fault => OfficeFault::Archive(fault),
        }
    }
}

impl From<AllocError> for OfficeFault<'_> {
    fn from(_: AllocError) -> Self {
        OfficeFault::Memory
    }
}

impl From<StreamFault> for OfficeFault<'_> {
    fn from(fault: StreamFault) -> Self {
        match fault {
            StreamFault::Memory => OfficeFault::Memory,
            StreamFault::Write | StreamFault::Read | StreamFault::TooLong => OfficeFault::Write,
        }
    }
}
