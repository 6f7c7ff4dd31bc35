ghost use Rattle.std.specs.Prelude.{◌≡◌, ◌↔◌, IsTrue};
ghost use Rattle.ledger_file.specs.declared.refusal.LedgerRefusal.TheVariants.{Format};
ghost use Rattle.ledger_file.specs.Refusals.{IsToldAs};

use device_files::FileFault;
use gate_journal::FormatRefusal;
use thiserror::Error;

/// Why there is no ledger at a path that could be opened, or made.
#[derive(Clone, Copy, Debug, PartialEq, Eq, Error)]
pub enum LedgerRefusal {
    /// It can't be had as a device.
    #[error("{0}")]
    Device(FileFault),
    /// There is nothing at the path.
    #[error("there is no such file; derbyfig format makes a ledger there")]
    Missing,
    /// It doesn't begin as a ledger does.
    #[error("it holds no ledger; derbyfig format makes one of a file without anything")]
    NoLedger,
    /// It begins as a ledger does, and is of another version than 3.
    #[error("it holds a ledger of version {0}; derbyfig migrate copies one of version 1 or 2 to a new file")]
    OtherVersion(u16),
    /// It begins so, and its first sector isn't that of a ledger of 1 to 1,000,000 slots.
    #[error("its first sector is damaged, and doesn't tell how many sectors its ledger has")]
    Unsound,
    /// It begins so, and has fewer sectors than its superblock needs.
    #[error("it is too short for its {slots} slots: it has {found} sectors and needs {needed}; it may be a part of a copy")]
    Short { slots: u64, found: u64, needed: u64 },
    /// It was to be formatted, and holds a whole ledger, sound or not.
    #[error("it holds a ledger already, which stays as it is")]
    HasLedger,
    /// It was to be formatted, and holds something else.
    #[error("it holds an unfinished ledger, or another program's file; --overwrite takes it")]
    HasOther,
    /// It is a disk that was to be formatted, with fewer sectors than that many slots need.
    #[error("it has {found} sectors, and a ledger of {slots} slots needs {needed}")]
    TooSmall { slots: u64, found: u64, needed: u64 },
    /// It wasn't formatted, or not to its end.
    #[error("{0}")]
    Format(FormatRefusal),
}

impl LedgerRefusal {
    /// Whether there was no memory.
    pub fn is_memory(self) -> bool
        ensures { IsTrue result ↔ (self ≡ LedgerRefusal.Device FileFault.Memory) }
    {
        matches!(self, LedgerRefusal::Device(FileFault::Memory))
    }
}

/// A missing file is reported as one that could be made.
impl From<FileFault> for LedgerRefusal {
    ghost from_gives = { IsToldAs };

    fn from(fault: FileFault) -> LedgerRefusal {
        match fault {
            FileFault::Missing => LedgerRefusal::Missing,
            fault => LedgerRefusal::Device(fault),
        }
    }
}

impl From<FormatRefusal> for LedgerRefusal {
    ghost from_gives = { λ inner refusal. refusal ≡ Format inner };

    fn from(refusal: FormatRefusal) -> LedgerRefusal {
        LedgerRefusal::Format(refusal)
    }
}
