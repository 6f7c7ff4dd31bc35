//! Why nothing, or not all, was added to an archive, or there is no copy in a folder.
ghost use Rattle.std.specs.Prelude.{◌≡◌, ◌↔◌};
ghost use Rattle.ledger_folder.specs.Faults.{TellsNumbers, IsReadFault, IsElsewhere, of_file};
ghost use Rattle.ledger_folder.specs.Faults.{of_device};
ghost use Rattle.ledger_folder.specs.Copies.{IsOfCopy, IsOccupied};

use device_files::FileFault;
use gate_journal::ReadRefusal;
use journal_recovery::OpenRefusal;
use std::alloc::AllocError;
use std::fmt;
use thiserror::Error;

/// A ledger of an archive, whose name is the number of its first batch in twenty digits.
#[derive(Clone, Copy, Debug)]
pub struct Volume<'a> {
    pub folder: &'a str,
    pub base: u64,
}

impl fmt::Display for Volume<'_> {
    fn fmt<W: fmt::Write>(&self, f: &mut fmt::Formatter<W>) -> fmt::Result {
        write!(f, "{}/{:020}", self.folder, self.base)
    }
}

/// A ledger, in a file or on a disk, or one of an archive.
#[derive(Clone, Copy, Debug)]
pub enum Part<'a> {
    /// In a file or on a disk.
    File(&'a str),
    /// Of an archive.
    Volume(Volume<'a>),
}

/// Its path.
impl fmt::Display for Part<'_> {
    fn fmt<W: fmt::Write>(&self, f: &mut fmt::Formatter<W>) -> fmt::Result {
        match self {
            Part::File(path) => f.write_str(path),
            Part::Volume(volume) => write!(f, "{volume}"),
        }
    }
}

/// Why an archive doesn't have all that its ledger lists, or can't be read, or there is no copy in
/// a folder of copies. What was added before stands.
#[derive(Clone, Copy, Debug, Error)]
pub enum ArchiveFault<'a> {
    /// There is no memory.
    #[error("out of memory")]
    Memory,
    /// The ledger, or one of the archive, can't be looked at.
    #[error("{0}: {1}")]
    Unread(Part<'a>, FileFault),
    /// It isn't sound.
    #[error("{0}: {1}")]
    NoLedger(Part<'a>, OpenRefusal),
    /// It was sound, and a record can't be read again.
    #[error("{0}: {1}")]
    Lost(Part<'a>, ReadRefusal),
    /// The first record of the archive's newest ledger doesn't have the number that is its name, or
    /// it has no record.
    #[error("{0}: it isn't of this archive: its first record doesn't have the number that is its name")]
    Foreign(Volume<'a>),
    /// There is no folder of that path.
    #[error("{0}: there is no such folder; make it first")]
    NoSuchFolder(&'a str),
    /// Something else is there.
    #[error("{0}: it is no folder")]
    NoFolder(&'a str),
    /// Another program adds to the archive in it.
    #[error("{0}: another program adds to this archive; wait until it has ended")]
    FolderInUse(&'a str),
    /// The system fails to open, lock, list, change or sync it.
    #[error("{0}: the system fails to open, lock, list, change or sync it")]
    FolderFailed(&'a str),
    /// It is for copies, and the archive's folder too, where a copy would be taken for a file of
    /// the archive.
    #[error("{0}: it is the archive's folder; the copies need another one")]
    FolderOfArchive(&'a str),
    /// It is for copies, and another office makes its own in it, or another program adds to an
    /// archive in it.
    #[error("{0}: another program adds to this folder; end that one first, or take another folder")]
    FolderTaken(&'a str),
    /// It is for copies, and no file can be made in it.
    #[error("{0}: no file can be made in it")]
    FolderUnwritable(&'a str),
    /// It has no ledger of an archive.
    #[error("{0}: it has no ledger of an archive")]
    Empty(&'a str),
    /// One or more ledgers of the archive are missing before this one.
    #[error("{volume}: its earliest batch is {first}, and {before} ends before {end}; those between are missing")]
    Missing {
        volume: Volume<'a>,
        first: u64,
        before: Volume<'a>,
        end: u64,
    },
    /// The ledger lists no record from the archive's end on, but only later ones.
    #[error("{path}: its earliest batch is {first}, and the archive ends before {end}; those between are lost")]
    Gap {
        path: &'a str,
        first: u64,
        end: u64,
    },
    /// It ends before the archive does.
    #[error("{path}: its next batch is {next}, and that of the archive is {end}; it isn't the archive's ledger, or an old copy, or lost those between; derbyfig restore makes a ledger that has them")]
    Short {
        path: &'a str,
        next: u64,
        end: u64,
    },
    /// A batch that both have isn't the same in both.
    #[error("{path}: its batch {batch} isn't the one in the archive; it isn't the archive's ledger")]
    Other {
        path: &'a str,
        batch: u64,
    },
    /// It held something else where the archive ends.
    #[error("{path}: before batch {end}, where the archive ends, it held other balances or seals; it isn't the archive's ledger")]
    Differs {
        path: &'a str,
        end: u64,
    },
    /// The ledger that is to be added can't be made.
    #[error("{0}/unfinished: {1}")]
    Unmade(&'a str, FileFault),
    /// It can't be written; or a copy can't be made, written, or given its name. Nothing of it is
    /// left, unless the system fails to take it away.
    #[error("{0}/unfinished: it can't be written")]
    Unwritten(&'a str),
    /// Something has a copy's name, and stays as it is.
    #[error("{0}: something has this name already")]
    Occupied(Volume<'a>),
}

impl<'a> ArchiveFault<'a> {
    // A ledger can't be looked at. Out of memory stays out of memory, here and below.
    pub(crate) fn of_file(part: Part<'a>, fault: FileFault) -> ArchiveFault<'a>
        ensures told { result ≡ of_file part.entry fault }
        ensures elsewhere { IsElsewhere result }
    {
        match fault {
            FileFault::Memory => ArchiveFault::Memory,
            fault => ArchiveFault::Unread(part, fault),
        }
    }

    // The ledger isn't sound.
    pub(crate) fn of_opening(path: &'a str, refusal: OpenRefusal) -> ArchiveFault<'a>
        ensures read { IsReadFault result ↔ (refusal ≡ OpenRefusal.Device) }
        ensures told { IsOfCopy result }
        ensures no_name { IsOccupied result → ⊥ }
        ensures numbers { TellsNumbers result }
    {
        match refusal {
            OpenRefusal::Memory => ArchiveFault::Memory,
            refusal => ArchiveFault::NoLedger(Part::File(path), refusal),
        }
    }

    // One of the archive isn't.
    pub(crate) fn of_volume(volume: Volume<'a>, refusal: OpenRefusal) -> ArchiveFault<'a>
        ensures { IsElsewhere result }
    {
        match refusal {
            OpenRefusal::Memory => ArchiveFault::Memory,
            refusal => ArchiveFault::NoLedger(Part::Volume(volume), refusal),
        }
    }

    // The ledger that is to be added can't be made.
    pub(crate) fn of_device(folder: &'a str, fault: FileFault) -> ArchiveFault<'a>
        ensures told { result ≡ of_device folder.entry fault }
        ensures elsewhere { IsElsewhere result }
    {
        match fault {
            FileFault::Memory => ArchiveFault::Memory,
            fault => ArchiveFault::Unmade(folder, fault),
        }
    }
}

impl From<AllocError> for ArchiveFault<'_> {
    ghost use Rattle.ledger_folder.specs.declared.faults.ArchiveFault.TheVariants.{Memory};

    ghost from_gives = { λ _ fault. fault ≡ Memory };

    fn from(_: AllocError) -> Self {
        ArchiveFault::Memory
    }
}
