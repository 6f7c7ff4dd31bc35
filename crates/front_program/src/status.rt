//! The statuses that programs end with.
ghost use Rattle.std.specs.Prelude.{◌≡◌, ◌≤◌};
ghost use Rattle.front_program.specs.Status.{code_of, console_code_of, of_opening, of_format};
ghost use Rattle.front_program.specs.Status.{of_turn, of_file, of_ledger, of_script};

use device_files::FileFault;
use front_scripts::ScriptFault;
use gate_journal::FormatRefusal;
use journal_recovery::OpenRefusal;
use ledger_file::LedgerRefusal;
use turn_clerk::TurnRefusal;

/// How a program ended.
#[derive(Clone, Copy, Debug, PartialEq, Eq)]
pub enum Status {
    /// It did what was asked for, or gave help.
    Done,
    /// There is no sound ledger, or what was asked for is refused by a rule.
    Refused,
    /// The words of the command line are wrong.
    WrongWords,
    /// The file, the device, memory or a stream failed.
    Failed,
}

impl Status {
    /// The status of `derbyfig`: 0 to 3, in the order of the variants.
    pub fn code(self) -> u8
        ensures code { result ≡ code_of self }
        ensures most { result ≤ 3 }
    {
        match self {
            Status::Done => 0,
            Status::Refused => 1,
            Status::WrongWords => 2,
            Status::Failed => 3,
        }
    }

    /// The status of `turn_console`: 1 after any fault.
    pub fn console_code(self) -> u8
        ensures code { result ≡ console_code_of self }
        ensures most { result ≤ 2 }
    {
        match self {
            Status::Done => 0,
            Status::Refused | Status::Failed => 1,
            Status::WrongWords => 2,
        }
    }
}

/// Where memory or the device fails, nothing is known; every other refusal says that there is no
/// ledger.
pub(crate) fn of_opening(refusal: OpenRefusal) -> Status
    ensures { result ≡ of_opening refusal }
{
    match refusal {
        OpenRefusal::Memory | OpenRefusal::Device => Status::Failed,
        OpenRefusal::Unformatted
        | OpenRefusal::Version(_)
        | OpenRefusal::Size
        | OpenRefusal::Damaged { .. } => Status::Refused,
    }
}

/// A device that fails is no matter of rules.
pub(crate) fn of_format(refusal: FormatRefusal) -> Status
    ensures { result ≡ of_format refusal }
{
    match refusal {
        FormatRefusal::TooManySlots | FormatRefusal::TooSmall => Status::Refused,
        FormatRefusal::Device => Status::Failed,
    }
}

/// An exhausted journal is one that a rule refuses a turn.
pub(crate) fn of_turn(refusal: TurnRefusal) -> Status
    ensures { result ≡ of_turn refusal }
{
    match refusal {
        TurnRefusal::Faulted | TurnRefusal::Memory | TurnRefusal::Device => Status::Failed,
        TurnRefusal::NoStation
        | TurnRefusal::NotPrivileged
        | TurnRefusal::TooMany
        | TurnRefusal::Exhausted => Status::Refused,
    }
}

/// A file or a disk that can't be had fails, a disk that isn't taken is refused.
pub(crate) fn of_file(fault: FileFault) -> Status
    ensures { result ≡ of_file fault }
{
    match fault {
        FileFault::DiskTooSmall | FileFault::DiskHasNoLedger | FileFault::NoDisk => Status::Refused,
        _ => Status::Failed,
    }
}

/// A path where nothing is fails, and what is there and isn't taken is refused.
pub(crate) fn of_ledger(refusal: LedgerRefusal) -> Status
    ensures { result ≡ of_ledger refusal }
{
    match refusal {
        LedgerRefusal::Device(fault) => of_file(fault),
        LedgerRefusal::Format(refusal) => of_format(refusal),
        LedgerRefusal::Missing => Status::Failed,
        LedgerRefusal::NoLedger
        | LedgerRefusal::OtherVersion(_)
        | LedgerRefusal::Unsound
        | LedgerRefusal::Short { .. }
        | LedgerRefusal::HasLedger
        | LedgerRefusal::HasOther
        | LedgerRefusal::TooSmall { .. } => Status::Refused,
    }
}

/// A line that is none of the grammar, and a script over its limit, are refused.
pub(crate) fn of_script(fault: ScriptFault) -> Status
    ensures { result ≡ of_script fault }
{
    match fault {
        ScriptFault::Line { .. } | ScriptFault::TooLong => Status::Refused,
        ScriptFault::Read | ScriptFault::Write | ScriptFault::Memory => Status::Failed,
    }
}
