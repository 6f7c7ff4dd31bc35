ghost use Rattle.std.specs.Prelude.{◌≡◌};
ghost use Rattle.device_files.specs.declared.refusal.FileFault.TheVariants.{Memory};
ghost use Rattle.device_files.specs.Disks.{as_file};

use std::alloc::AllocError;
use std::io;
use std::io::ErrorKind;
use thiserror::Error;

/// Why a file didn't become a device.
#[derive(Clone, Copy, Debug, PartialEq, Eq, Error)]
pub enum FileRefusal {
    /// There was no memory: for the buffer, or for what the system says of a disk. Nothing has been
    /// written.
    #[error("out of memory")]
    Memory,
    /// The file, or the folder that it lies in, can't be opened, read, grown or synced, it is
    /// neither a regular file nor a disk, its length isn't a multiple of 512, another holds it, or
    /// the system has no locks for it. It may have been grown, if it couldn't be synced after that.
    /// Or it is a disk with a fault of its own.
    #[error("the file can't be used as a device")]
    File,
}

/// Why a file or a disk, which is a block device, can't be had: to look at it, or as a device.
/// Nothing was written to a disk.
#[derive(Clone, Copy, Debug, PartialEq, Eq, Error)]
pub enum FileFault {
    /// There is nothing at the path.
    #[error("there is no such file")]
    Missing,
    /// There is no folder in which the file could be made.
    #[error("there is no such folder; make it first")]
    NoFolder,
    /// This user may not read it.
    #[error("it may not be read; its owner can allow that")]
    NotReadable,
    /// This user may not both read and write it, or may not make it.
    #[error("it may not be read and written; its owner can allow that")]
    NotWritable,
    /// It is neither a regular file nor a disk.
    #[error("it is neither a file nor a disk")]
    NoFile,
    /// Its length isn't a multiple of 512.
    #[error("its length is no multiple of 512 bytes; it is no ledger, or something was appended to it")]
    NotSectors,
    /// Another program has it.
    #[error("another program has it; end that one first")]
    InUse,
    /// The file system has no room for so many sectors, or no file may have them.
    #[error("its file system has no room for it; make room, or take another path")]
    NoRoom,
    /// There was no memory: for the buffer, or for what the system says of a disk.
    #[error("out of memory")]
    Memory,
    /// A call of the system failed for another reason.
    #[error("the system fails to open, lock, read or write it")]
    Failed,
    /// It is a disk that may not be read and written: by this user, or by anybody.
    #[error("it is a disk that may not be read and written")]
    DiskDenied,
    /// It is a disk that another program has, or that is mounted, swapped to or a part of another
    /// device.
    #[error("it is a disk that is in use")]
    DiskInUse,
    /// It is a disk with fewer sectors than were asked for.
    #[error("it is a disk with too few sectors")]
    DiskTooSmall,
    /// It is a disk that doesn't begin as a ledger does, nor with zeros.
    #[error("it is a disk that holds no ledger; --overwrite takes it all the same")]
    DiskHasNoLedger,
    /// A disk was to be written over, and this is none.
    #[error("it is no disk, and --overwrite is for disks alone")]
    NoDisk,
}

impl FileFault {
    // The same of a file that was to be written too.
    pub(crate) fn for_writing(self) -> FileFault {
        match self {
            FileFault::NotReadable => FileFault::NotWritable,
            fault => fault,
        }
    }

    // The same of a disk.
    pub(crate) fn of_disk(self) -> FileFault {
        match self {
            FileFault::NotReadable | FileFault::NotWritable => FileFault::DiskDenied,
            FileFault::InUse => FileFault::DiskInUse,
            fault => fault,
        }
    }

    // Why a call failed on what was to be written too.
    pub(crate) fn of_writing(error: io::Error) -> FileFault {
        FileFault::from(error).for_writing()
    }
}

impl From<AllocError> for FileFault {
    ghost from_gives = { λ _ fault. fault ≡ Memory };

    fn from(_: AllocError) -> Self {
        Self::Memory
    }
}

impl From<io::Error> for FileFault {
    fn from(error: io::Error) -> FileFault {
        match error.kind() {
            ErrorKind::NotFound | ErrorKind::NotADirectory => FileFault::Missing,
            ErrorKind::PermissionDenied | ErrorKind::ReadOnlyFilesystem => FileFault::NotReadable,
            ErrorKind::IsADirectory => FileFault::NoFile,
            ErrorKind::WouldBlock | ErrorKind::ResourceBusy => FileFault::InUse,
            ErrorKind::StorageFull | ErrorKind::QuotaExceeded | ErrorKind::FileTooLarge => {
                FileFault::NoRoom
            }
            ErrorKind::OutOfMemory => FileFault::Memory,
            _ => FileFault::Failed,
        }
    }
}

impl From<FileFault> for FileRefusal {
    ghost from_gives = { λ fault file. file ≡ as_file fault };

    fn from(fault: FileFault) -> FileRefusal {
        match fault {
            FileFault::Memory => FileRefusal::Memory,
            _ => FileRefusal::File,
        }
    }
}
