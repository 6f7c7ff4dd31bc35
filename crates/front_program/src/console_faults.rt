//! What `turn_console` tells of why it ends early.
use crate::faults::Fault;
use device_files::FileFault;
use gate_journal::FormatRefusal;
use journal_recovery::OpenName;
use ledger_file::LedgerRefusal;
use std::fmt;

/// A fault of a script, in the words of `turn_console`: why a disk is refused, but only that a file
/// is, and by its name why no older ledger was copied.
#[derive(Clone, Copy, Debug)]
pub(crate) struct ToldByConsole<'a>(pub Fault<'a>);

impl fmt::Display for ToldByConsole<'_> {
    fn fmt<W: fmt::Write>(&self, f: &mut fmt::Formatter<W>) -> fmt::Result {
        match self.0 {
            Fault::Script(fault) => write!(f, "{fault}"),
            Fault::Ledger(path, refusal) => write_refusal(path, refusal, f),
            Fault::NoLedger(_, refusal) => {
                write!(f, "migrate refused Source {}", OpenName(refusal))
            }
            _ => f.write_str("device failed"),
        }
    }
}

fn write_refusal<W: fmt::Write>(
    path: &str,
    refusal: LedgerRefusal,
    f: &mut fmt::Formatter<W>,
) -> fmt::Result {
    match refusal {
        LedgerRefusal::Device(fault) => match told_of_disk(fault) {
            Some(told) => write!(f, "device failed: {path} {told}"),
            None => f.write_str("device failed"),
        },
        LedgerRefusal::HasLedger => f.write_str("migrate refused NotEmpty"),
        LedgerRefusal::OtherVersion(version) => {
            write!(f, "migrate refused Source Version {version}")
        }
        LedgerRefusal::Format(FormatRefusal::Device) => f.write_str("migrate refused Target"),
        LedgerRefusal::Format(refusal) => write!(f, "migrate refused {refusal:?}"),
        _ => f.write_str("device failed"),
    }
}

// What is told of a disk behind its path.
fn told_of_disk(fault: FileFault) -> Option<&'static str> {
    match fault {
        FileFault::DiskDenied => Some("is a disk that may not be read and written"),
        FileFault::DiskInUse => Some("is a disk that is in use"),
        FileFault::DiskTooSmall => Some("is a disk with too few sectors"),
        FileFault::DiskHasNoLedger => {
            Some("is a disk that holds no ledger; --overwrite takes it all the same")
        }
        FileFault::NoDisk => Some("is no disk, and --overwrite is for disks alone"),
        _ => None,
    }
}
