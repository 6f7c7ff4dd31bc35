//! Why a command of `derbyfig` ends early.
ghost use Rattle.std.specs.Prelude.{◌≡◌, ◌≢◌};
ghost use Rattle.front_program.specs.Status.{of_ledger, of_migration, of_opening};
ghost use Rattle.front_program.specs.Statuses.{
  status_of,
  of_office,
  of_control,
  of_archive,
  of_counters,
  of_inspection,
};

use crate::status::{Status, of_ledger, of_opening, of_script, of_turn};
use device_files::FileFault;
use front_scripts::ScriptFault;
use gate_journal::FormatRefusal;
use journal_recovery::{MigrateRefusal, OpenRefusal};
use ledger_counters::CountersFault;
use ledger_file::LedgerRefusal;
use ledger_folder::ArchiveFault;
use ledger_inspection::InspectionFault;
use line_lock::OfficeRefusal;
use office_service::{CounterFault, CounterRefusal, OfficeFault};
use office_sessions::LiveRefusal;
use thiserror::Error;

/// Why a command of `derbyfig` ended before it was done.
#[derive(Clone, Copy, Debug, Error)]
pub enum Fault<'a> {
    /// The script ended early, or there is no memory, or the output can't be written.
    #[error("{0}")]
    Script(ScriptFault),
    /// There is no ledger at the path that could be opened, or made.
    #[error("{0}: {1}")]
    Ledger(&'a str, LedgerRefusal),
    /// A ledger that is to be copied isn't sound.
    #[error("{0}: {1}")]
    NoLedger(&'a str, OpenRefusal),
    /// An office wasn't kept open, or ended early.
    #[error("{0}")]
    Office(#[from] OfficeFault<'a>),
    /// An office wasn't closed, or doesn't tell how it stands.
    #[error("{0}")]
    Control(#[from] CounterFault<'a>),
    /// An archive doesn't have all of a ledger.
    #[error("{0}")]
    Archive(#[from] ArchiveFault<'a>),
    /// The counters of a ledger can't be taken along.
    #[error("{0}")]
    Counters(#[from] CountersFault<'a>),
    /// A ledger, or several as one book, wasn't inspected to its end; or a ledger that is to be
    /// copied can't be looked at, or an archive that is to be restored isn't sound.
    #[error("{0}")]
    Inspection(#[from] InspectionFault<'a>),
}

impl<'a> Fault<'a> {
    /// Out of memory.
    pub(crate) const MEMORY: Fault<'static> = Fault::Script(ScriptFault::Memory);

    /// The status that the program ends with.
    pub fn status(self) -> Status
        ensures { result ≡ status_of self.entry }
    {
        match self {
            Fault::Script(fault) => of_script(fault),
            Fault::Ledger(_, refusal) => of_ledger(refusal),
            Fault::NoLedger(_, refusal) => of_opening(refusal),
            Fault::Office(fault) => of_office(fault),
            Fault::Control(fault) => of_control(fault),
            Fault::Archive(fault) => of_archive(fault),
            Fault::Counters(fault) => of_counters(fault),
            Fault::Inspection(fault) => of_inspection(fault),
        }
    }

    // Of a path where there is no ledger. Out of memory is told as such.
    pub(crate) fn of_ledger(path: &'a str, refusal: LedgerRefusal) -> Fault<'a>
        ensures status { status_of result ≡ of_ledger refusal }
        ensures memory { refusal ≡ LedgerRefusal.Device FileFault.Memory
            → result ≡ Fault.Script ScriptFault.Memory }
        ensures other { refusal ≢ LedgerRefusal.Device FileFault.Memory
            → result ≡ Fault.Ledger path.entry refusal }
    {
        if refusal.is_memory() {
            return Fault::MEMORY;
        }
        Fault::Ledger(path, refusal)
    }

    // Of an older ledger that wasn't copied from one path to another.
    pub(crate) fn of_migration(old: &'a str, path: &'a str, refusal: MigrateRefusal) -> Fault<'a>
        ensures status { status_of result ≡ of_migration refusal }
        ensures memory { refusal ≡ MigrateRefusal.Source OpenRefusal.Memory
            → result ≡ Fault.Script ScriptFault.Memory }
    {
        let refusal = match refusal {
            MigrateRefusal::Source(refusal) => return Fault::of_opening(old, refusal),
            MigrateRefusal::TooManySlots => FormatRefusal::TooManySlots,
            MigrateRefusal::TooSmall => FormatRefusal::TooSmall,
            MigrateRefusal::Target => FormatRefusal::Device,
        };
        Fault::of_ledger(path, LedgerRefusal::Format(refusal))
    }

    // Of a path where there is no sound ledger of the layout that is copied.
    pub(crate) fn of_opening(path: &'a str, refusal: OpenRefusal) -> Fault<'a>
        ensures status { status_of result ≡ of_opening refusal }
        ensures memory { refusal ≡ OpenRefusal.Memory
            → result ≡ Fault.Script ScriptFault.Memory }
    {
        match refusal {
            OpenRefusal::Memory => Fault::MEMORY,
            OpenRefusal::Version(version) => {
                Fault::Ledger(path, LedgerRefusal::OtherVersion(version))
            }
            refusal => Fault::NoLedger(path, refusal),
        }
    }
}

// The status for a fault of an office.
fn of_office(fault: OfficeFault<'_>) -> Status
    ensures { result ≡ of_office fault.entry }
{
    match fault {
        OfficeFault::File(_, refusal) => of_ledger(refusal),
        OfficeFault::NoLedger(_, refusal) => of_opening(refusal),
        OfficeFault::Office(LiveRefusal::Office(OfficeRefusal::Opening(refusal))) => {
            of_opening(refusal)
        }
        OfficeFault::Refused(refusal) => of_turn(refusal),
        OfficeFault::Archive(fault) => of_archive(fault),
        OfficeFault::Counters(fault) => of_counters(fault),
        _ => Status::Failed,
    }
}

// The same for one of speaking at it from outside.
fn of_control(fault: CounterFault<'_>) -> Status
    ensures { result ≡ of_control fault.entry }
{
    match fault.refusal {
        CounterRefusal::NotOpen | CounterRefusal::HasClient => Status::Refused,
        _ => Status::Failed,
    }
}

// For one of an archive.
fn of_archive(fault: ArchiveFault<'_>) -> Status
    ensures { result ≡ of_archive fault.entry }
{
    match fault {
        ArchiveFault::NoLedger(_, refusal) => of_opening(refusal),
        ArchiveFault::FolderOfArchive(_)
        | ArchiveFault::Empty(_)
        | ArchiveFault::Foreign(_)
        | ArchiveFault::Missing { .. }
        | ArchiveFault::Gap { .. }
        | ArchiveFault::Short { .. }
        | ArchiveFault::Other { .. }
        | ArchiveFault::Differs { .. } => Status::Refused,
        _ => Status::Failed,
    }
}

// For one of counters.
fn of_counters(fault: CountersFault<'_>) -> Status
    ensures { result ≡ of_counters fault.entry }
{
    if fault.cause.is_refusal() {
        Status::Refused
    } else {
        Status::Failed
    }
}

// For one of an inspection.
fn of_inspection(fault: InspectionFault<'_>) -> Status
    ensures { result ≡ of_inspection fault.entry }
{
    if fault.is_refusal() {
        Status::Refused
    } else {
        Status::Failed
    }
}

impl From<ScriptFault> for Fault<'_> {
    ghost use Rattle.std.specs.Prelude.{◌≡◌};
    ghost use Rattle.front_program.specs.declared.faults.Fault.TheVariants.{Script};

    ghost from_gives = { λ inner fault. fault ≡ Script inner };

    fn from(fault: ScriptFault) -> Self {
        Fault::Script(fault)
    }
}
