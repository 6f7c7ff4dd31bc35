//! Who keeps the archive of an office, and makes copies of its ledger.
ghost use Rattle.std.specs.Prelude.{◌≡◌, ◌≢◌, IfOk, IfErr, IsErrAnd};
ghost use Rattle.sector_device.specs.Crash.{AreLooks, WasLookedAt};
ghost use Rattle.ledger_folder.specs.Copies.{IsNumberOf, IsOfCopy};
ghost use Rattle.ledger_folder.specs.Faults.{IsReadFault};
ghost use Rattle.office_service.specs.Copies.{told_as};
ghost use Rattle.office_service.specs.FolderArchive.{folder_archive};

use crate::faults::OfficeFault;
use crate::looking_back::last_in_archive;
use crate::seating::Seating;
use crate::serving::ServeOptions;
use device_files::FileNumber;
use gate_journal::{Borrower, Journal};
use ledger_counters::RosterPath;
use ledger_folder::{
    ArchiveFault, CopyPaths, LockedFolder, SystemFolder, archive_journal, check_no_gap,
    copy_to_folder, open_copies,
};
use office_sessions::{ArchiveState, CounterCopyRefusal, Keeper, LookAnswer};
use sector_device::Device;
use std::fs;
use std::fs::{File, Files};
use turn_clerk::Clerk;

/// The archive of an office, if it has one, and why it couldn't be written, if it couldn't.
#[derive(Drop)]
pub(crate) struct Archivist<'a, 'r, R> {
    rt: &'r R,
    // The path of the ledger.
    path: &'a str,
    folder: Option<LockedFolder<'a>>,
    // The path of the archive.
    books: Option<&'a str>,
    // The folder of the copies.
    copies: Option<LockedFolder<'a>>,
    // From the batch of this number on only offices posted.
    since: u64,
    // Where it is kept which station each counter has.
    place: RosterPath<'a>,
    // Which file the ledger is, once it is open, and which folder the archive is.
    ledger: Option<FileNumber>,
    archive: Option<FileNumber>,
    // How far the archive is, as it was kept last.
    kept: ArchiveState,
    fault: Option<OfficeFault<'a>>,
}

impl<'a, 'r, R: Files<File = File> + AllocGlobal + Clone + Drop> Archivist<'a, 'r, R> {
    /// Opens the archive, if the office has one, in which no file may be missing between others,
    /// and the folder of the copies, if it makes any.
    pub(crate) fn open(
        rt: &'r R,
        serving: &ServeOptions<'a>,
    ) -> Result<Archivist<'a, 'r, R>, OfficeFault<'a>> {
        let folder = match serving.archive {
            Some(folder) => Some(open_archive(rt, folder)?),
            None => None,
        };
        let copies = match serving.copies {
            Some(path) => Some(open_copies(rt, path, serving.archive)?),
            None => None,
        };
        Ok(Archivist {
            rt,
            path: serving.path,
            folder,
            books: serving.archive,
            copies,
            since: 0,
            place: RosterPath::Beside(serving.path),
            ledger: None,
            archive: None,
            kept: ArchiveState::NoArchive,
            fault: None,
        })
    }

    /// Adds to the archive, if there is one, what it lacks of the clerk's ledger.
    pub(crate) fn add_of<D: Device + Drop>(
        &mut self,
        clerk: Clerk<D>,
    ) -> Result<Clerk<D>, OfficeFault<'a>> {
        let clerk = clerk.lend(self);
        match self.fault {
            Some(fault) => Err(fault),
            None => Ok(clerk),
        }
    }

    /// Learns which stations the counters have, and keeps that in the archive, if there is one.
    /// From now on the names of ledger and archive have to stay those of what is open.
    pub(crate) fn learn(&mut self, seating: &Seating<'a>) -> Result<(), OfficeFault<'a>> {
        self.since = seating.since();
        self.place = seating.place;
        self.ledger = number_at(self.rt, self.path);
        let Some(folder) = self.books else {
            return Ok(());
        };
        self.archive = number_at(self.rt, folder);
        seating.write_into(self.rt, folder)
    }

    /// Why the archive couldn't be kept.
    pub(crate) fn fault(&self) -> Option<OfficeFault<'a>> {
        self.fault
    }

    // Adds what the archive lacks, if there is one, and how far it is.
    fn add<D: Device>(&self, journal: Journal<D>) -> (D, Result<ArchiveState, OfficeFault<'a>>)
        ensures looked { WasLookedAt (D.state journal.device) (D.state result.0) }
        ensures told { IfOk result.1 (λ kept. kept ≢ ArchiveState.Failed) }
    {
        if let Some(path) = self.lost() {
            return (journal.into_device(), Err(OfficeFault::Lost(path)));
        }
        let Some(folder) = &self.folder else {
            return (journal.into_device(), Ok(ArchiveState::NoArchive));
        };
        let (device, added) = archive_journal(self.rt, self.path, journal, folder);
        match added {
            Ok(archived) => (device, Ok(ArchiveState::UpTo(archived.next()))),
            Err(fault) => (device, Err(OfficeFault::from(fault))),
        }
    }

    // The path of the ledger or of the archive, if that isn't there any more, or another one is.
    fn lost(&self) -> Option<&'a str> {
        if self.ledger.is_some() && number_at(self.rt, self.path) != self.ledger {
            return Some(self.path);
        }
        let folder = self.books?;
        if self.archive.is_some() && number_at(self.rt, folder) != self.archive {
            return Some(folder);
        }
        None
    }
}

impl<R: Files<File = File> + AllocGlobal + Clone + Drop> Keeper for Archivist<'_, '_, R> {
    ghost archive = { λ archivist. folder_archive archivist.fault };

    ghost so_far = { λ archivist. archivist.kept };

    fn keep<D: Device>(&mut self, journal: Journal<D>) -> (D, ArchiveState) {
        let (device, added) = self.add(journal);
        match added {
            Ok(kept) => self.kept = kept,
            Err(fault) => {
                self.fault = Some(fault);
                self.kept = ArchiveState::Failed;
            }
        }
        (device, self.kept)
    }

    fn kept(&self) -> ArchiveState {
        self.kept
    }

    fn copy<D: Device>(&mut self, device: D) -> (D, Result<u64, CounterCopyRefusal>) {
        let Some(folder) = &self.copies else {
            return (device, Err(CounterCopyRefusal::NoFolder));
        };
        let (device, copied) = copy_into(self.rt, self.path, device, folder, self.place);
        (device, copied.map_err(told_as))
    }

    fn last(&mut self, station: u8) -> Option<LookAnswer> {
        last_in_archive(self.rt, self.books?, station, self.since)
    }
}

impl<R: Files<File = File> + AllocGlobal + Clone + Drop> Borrower for Archivist<'_, '_, R> {
    fn look<D: Device>(&mut self, journal: Journal<D>) -> D {
        let (device, _) = self.keep(journal);
        device
    }
}

// The folder of the archive, to be added to.
fn open_archive<'a, R: Files<File = File> + AllocGlobal + Clone + Drop>(
    rt: &R,
    path: &'a str,
) -> Result<LockedFolder<'a>, ArchiveFault<'a>> {
    let folder = LockedFolder::open_to_add(rt, path)?;
    check_no_gap(rt, path)?;
    Ok(folder)
}

// Copies the ledger on a device into a folder of the system's.
fn copy_into<'a, D: Device, R: Files<File = File> + AllocGlobal>(
    rt: &R,
    ledger: &'a str,
    device: D,
    folder: &LockedFolder<'a>,
    counters: RosterPath<'a>,
) -> (D, Result<u64, ArchiveFault<'a>>)
    ensures looks { AreLooks (D.state device) (D.state result.0) (IsErrAnd result.1 IsReadFault) }
    ensures told { IfErr result.1 IsOfCopy }
    ensures number { (D.state device).honest
        → IfOk result.1 (λ number. IsNumberOf number (D.state device).reads) }
{
    let copying = CopyPaths {
        ledger,
        folder: folder.path(),
        counters,
    };
    let mut files = SystemFolder::new(rt, folder);
    copy_to_folder(rt, copying, device, &mut files)
}

// Why there is no copy.
fn told_as(fault: ArchiveFault<'_>) -> CounterCopyRefusal
    ensures { result ≡ told_as fault.entry }
{
    match fault {
        ArchiveFault::Memory => CounterCopyRefusal::Memory,
        ArchiveFault::NoLedger(_, _) => CounterCopyRefusal::Device,
        ArchiveFault::Occupied(_) => CounterCopyRefusal::Occupied,
        _ => CounterCopyRefusal::Unwritten,
    }
}

// Which file is at the path, if one can be seen there.
fn number_at<R: Files<File = File>>(rt: &R, path: &str) -> Option<FileNumber> {
    Some(FileNumber::of(&fs::metadata(rt, path).ok()?))
}
