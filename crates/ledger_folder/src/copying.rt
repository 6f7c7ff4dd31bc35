//! Copies of a ledger in a folder, each named by a number.
ghost use Rattle.std.specs.Prelude.{◌≡◌, ◌≤◌, None, IfOk, IfErr, OnOk, IsOk, IsErrAnd, IsSome};
ghost use Rattle.std.specs.Prelude.{string_bytes};
ghost use Rattle.std.specs.Int.NonZero.{non_zero_u64_get};
ghost use Rattle.sector_device.specs.Crash.{AreLooks};
ghost use Rattle.gate_journal.specs.Layout.{sectors_needed};
ghost use Rattle.journal_recovery.specs.Recovery.{RecoversTo};
ghost use Rattle.ledger_file.specs.Originals.{held_by};
ghost use Rattle.device_folder.specs.Crash.{LeavesOnly};
ghost use Rattle.device_folder.specs.Put.{IsRun, IsSettledBut, IsSettled};
ghost use Rattle.device_folder.specs.Put.{IsBeforeOrAfter, StandsFor};
ghost use Rattle.ledger_folder.specs.Faults.{IsElsewhere, IsReadFault};
ghost use Rattle.ledger_folder.specs.Copies.{IsNumberOf, IsOfCopy, IsOccupied, name_of, unfinished};
ghost use Rattle.ledger_folder.specs.Copies.{IsCopiedOrNot, HasCopy, HasNameOfNext};

use crate::faults::{ArchiveFault, Volume};
use crate::folder::{LockedFolder, are_one_folder};
use device_folder::{Content, Folder, FolderFault, PutFault, put_file};
use gate_journal::{FormatRefusal, MOST_SLOTS, sectors_needed};
use journal_recovery::{Recovered, recover};
use ledger_counters::{RosterFault, RosterPath, remove_roster, take_along};
use ledger_file::Original;
use sector_device::Device;
use std::alloc::{AllocError, Global};
use std::fs::{File, Files};
use std::num::NonZeroU64;

/// The name of a copy that isn't finished.
const UNFINISHED: &str = "unfinished";

/// Opens and locks the folder of an office's copies, finds out whether a file can be made in it,
/// and makes the names in it durable. What a copy left there that wasn't finished is removed. The
/// folder of the office's archive is refused, by whatever path.
///
/// # Errors
/// [`ArchiveFault`] of a folder, the first that holds, or out of memory.
pub fn open_copies<'a, R: Files<File = File> + AllocGlobal>(
    rt: &R,
    path: &'a str,
    archive: Option<&str>,
) -> Result<LockedFolder<'a>, ArchiveFault<'a>>
    ensures { IfErr result IsElsewhere }
{
    if let Some(archive) = archive {
        if are_one_folder(rt, archive, path) {
            return Err(ArchiveFault::FolderOfArchive(path));
        }
    }
    let folder = LockedFolder::open(rt, path).map_err(told_of_copies)?;
    let unfinished = folder.unfinished(rt.alloc())?;
    if !folder.can_be_written(rt, unfinished.as_str()) {
        return Err(ArchiveFault::FolderUnwritable(path));
    }
    match folder.sync() {
        Ok(()) => Ok(folder),
        Err(_) => Err(ArchiveFault::FolderFailed(path)),
    }
}

// Why a folder isn't had, in words of copies.
fn told_of_copies<'a>(fault: ArchiveFault<'a>) -> ArchiveFault<'a>
    ensures { IsElsewhere fault.entry → IsElsewhere result }
{
    match fault {
        ArchiveFault::FolderInUse(path) => ArchiveFault::FolderTaken(path),
        ArchiveFault::FolderFailed(path) => ArchiveFault::FolderUnwritable(path),
        fault => fault,
    }
}

/// The paths of a copy in a folder.
#[derive(Clone, Copy, Debug)]
pub struct CopyPaths<'a> {
    /// The ledger's.
    pub ledger: &'a str,
    /// That of the folder that the copy goes into.
    pub folder: &'a str,
    /// Where it is kept which station each of the ledger's counters has.
    pub counters: RosterPath<'a>,
}

/// A copy that is to be made of a ledger, with so many slots in each bank.
#[derive(Drop)]
struct LedgerCopy {
    original: Original,
    slots: NonZeroU64,
    ghost most: { non_zero_u64_get slots ≤ 1000000 },
}

impl LedgerCopy {
    // A journal has no more slots.
    fn new(original: Original, slots: u64) -> LedgerCopy
        ensures { result.original ≡ original }
    {
        let slots = NonZeroU64::new(slots.min(MOST_SLOTS)).unwrap_or(NonZeroU64::MIN);
        LedgerCopy { original, slots }
    }
}

impl Content for LedgerCopy {
    type Fault = FormatRefusal;

    ghost holds = { λ copy image. RecoversTo (held_by copy.original) image };

    ghost size = { λ copy. sectors_needed (non_zero_u64_get copy.slots) };

    fn sectors(&self) -> u64 {
        sectors_needed(self.slots.get())
    }

    fn write<D: Device>(&mut self, device: &mut D) -> Result<(), FormatRefusal> {
        self.original.write(device, self.slots)
    }
}

/// Copies the ledger on a device into a folder, with as many slots, under the number of its next
/// batch in twenty digits. The list of the ledger's counters is kept beside that name first. Then
/// the copy is made under the name `unfinished` and synced, it is given its own, and the folder is
/// synced: whatever ends this early, nothing stands under a copy's name but a whole one, with its
/// counters. If no copy is made, the list is removed again. The device is only read, and handed
/// back.
///
/// The folder is the one at that path. Contracts speak of its state as of all names but those of
/// lists of counters: these are kept by the system's own calls, and aren't devices.
///
/// # Errors
/// Out of memory; `NoLedger` if the ledger can't be read, or isn't sound; `Occupied` if the name is
/// taken; `Unwritten`.
pub fn copy_to_folder<'a, D: Device, F: Folder, R: Files<File = File> + AllocGlobal>(
    rt: &R,
    copying: CopyPaths<'a>,
    device: D,
    folder: &mut F,
) -> (D, Result<u64, ArchiveFault<'a>>)
    ensures looks { AreLooks (D.state device) (D.state result.0) (IsErrAnd result.1 IsReadFault) }
    ensures told { IfErr result.1 IsOfCopy }
    ensures call { IsRun (F.state folder.old) (F.state folder.new) ⊥ (IsOk result.1) }

    // On an honest device.
    ensures number { (D.state device).honest
        → IfOk result.1 (λ number. IsNumberOf number (D.state device).reads) }

    // On an honest device, into an honest folder.
    ensures occupied { (D.state device).honest → (F.state folder.old).honest
        → IfErr result.1 (λ fault. IsOccupied fault
        → HasNameOfNext (D.state device).reads (F.state folder.old)) }

    ensures any_moment { (D.state device).honest → (F.state folder.old).honest
        → LeavesOnly (F.state folder.old) (F.state folder.new)
        (IsCopiedOrNot (D.state device).reads (F.state folder.old)) }
    ensures copied { (D.state device).honest → (F.state folder.old).honest
        → IfOk result.1 (λ number. HasCopy number (D.state device).reads
        (F.state folder.old) (F.state folder.new)) }
    ensures settled { (D.state device).honest → (F.state folder.old).honest
        → IsSettledBut unfinished (F.state folder.old)
        → OnOk result.1 (IsSettled (F.state folder.new)) }
{
    let Recovered { journal, ledger } = match recover(rt.alloc(), device) {
        Ok(found) => found,
        Err((device, refusal)) => {
            let fault = ArchiveFault::of_opening(copying.ledger, refusal);
            return (device, Err(fault));
        }
    };
    let next = journal.next();
    let copy = LedgerCopy::new(Original { ledger, next }, journal.slots());
    let copied = put_copy(rt, copying, folder, copy);
    (journal.into_device(), copied)
}

// Puts a copy into the folder, and tells its number.
fn put_copy<'a, F: Folder, R: Files<File = File> + AllocGlobal>(
    rt: &R,
    copying: CopyPaths<'a>,
    folder: &mut F,
    mut copy: LedgerCopy,
) -> Result<u64, ArchiveFault<'a>>
    ensures number { IfOk result (λ number. number ≡ copy.original.next) }
    ensures unread { IfErr result IsElsewhere }
    ensures told { IfErr result IsOfCopy }
    ensures call { IsRun (F.state folder.old) (F.state folder.new) ⊥ (IsOk result) }
    ensures free { (F.state folder.old).honest → OnOk result
        ((F.state folder.old).names (name_of copy.original.next) ≡ None) }
    ensures occupied { (F.state folder.old).honest → IfErr result (λ fault. IsOccupied fault
        → IsSome ((F.state folder.old).names (name_of copy.original.next))) }
    ensures any_moment { (F.state folder.old).honest
        → LeavesOnly (F.state folder.old) (F.state folder.new)
        (IsBeforeOrAfter unfinished (name_of copy.original.next)
        (RecoversTo (held_by copy.original)) (F.state folder.old)) }
    ensures stands { (F.state folder.old).honest
        → OnOk result (StandsFor unfinished (name_of copy.original.next)
        (RecoversTo (held_by copy.original)) (F.state folder.old) (F.state folder.new)) }
    ensures settled { (F.state folder.old).honest → IsSettledBut unfinished (F.state folder.old)
        → OnOk result (IsSettled (F.state folder.new)) }
{
    let number = copy.original.next;
    let volume = Volume {
        folder: copying.folder,
        base: number,
    };
    let name = digits_of(rt.alloc(), number)?;
    let own = format!(in rt.alloc(); "{volume}")?;
    match folder.exists(name.as_str()) {
        Ok(true) => return Err(ArchiveFault::Occupied(volume)),
        Ok(false) => {}
        Err(fault) => return Err(of_folder(copying.folder, fault)),
    }
    let beside = RosterPath::Beside(own.as_str());
    if let Err(fault) = take_along(rt, copying.counters, beside) {
        let _ = remove_roster(rt, beside);
        return Err(of_counters(copying.folder, fault.cause));
    }
    match put_file(folder, UNFINISHED, name.as_str(), &mut copy) {
        Ok(()) => Ok(number),
        Err(fault) => {
            // A copy that can't be taken back keeps its counters.
            if matches!(folder.exists(name.as_str()), Ok(false)) {
                let _ = remove_roster(rt, beside);
            }
            Err(of_put(copying.folder, fault))
        }
    }
}

// The name of the copy of that number.
fn digits_of(alloc: Global, number: u64) -> Result<String, AllocError>
    ensures { IfOk result (λ name. string_bytes name ≡ name_of number) }
{
    format!(in alloc; "{number:020}")
}

// Why no copy was made.
fn of_put(folder: &str, fault: PutFault<FormatRefusal>) -> ArchiveFault<'_>
    ensures told { IsOfCopy result }
    ensures unread { IsElsewhere result }
    ensures no_name { IsOccupied result → ⊥ }
{
    match fault {
        PutFault::Folder(fault) => of_folder(folder, fault),
        PutFault::Content(_) => ArchiveFault::Unwritten(folder),
    }
}

fn of_counters(folder: &str, fault: RosterFault) -> ArchiveFault<'_>
    ensures told { IsOfCopy result }
    ensures unread { IsElsewhere result }
    ensures no_name { IsOccupied result → ⊥ }
{
    match fault {
        RosterFault::Memory => ArchiveFault::Memory,
        _ => ArchiveFault::Unwritten(folder),
    }
}

fn of_folder(folder: &str, fault: FolderFault) -> ArchiveFault<'_>
    ensures told { IsOfCopy result }
    ensures unread { IsElsewhere result }
    ensures no_name { IsOccupied result → ⊥ }
{
    match fault {
        FolderFault::Memory => ArchiveFault::Memory,
        _ => ArchiveFault::Unwritten(folder),
    }
}
