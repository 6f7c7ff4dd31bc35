//! Disks that a device is opened on: block devices.
ghost use Rattle.std.specs.Prelude.{◌≡◌, ◌*◌, ◌/◌, ◌<◌, ◌≤◌, ◌^◌, ◌↔◌, ◌⊎◌, IsOk, IsTrue, IfOk};
ghost use Rattle.std.specs.Prelude.{OnOk, Err};
ghost use Rattle.device_files.specs.Disks.{BeginsAsLedger, IsZero};

use crate::device_file::DeviceFile;
use crate::disk_tables::{DeviceNumber, check_idle};
use crate::locked_file::DeviceNeeds;
use crate::opening::{SECTOR_LENGTH, check_length};
use crate::refusal::FileFault;
use sector_device::Sector;
use std::alloc::Global;
use std::fs::Files;

/// How the first sector of a ledger begins, of whatever layout.
const MAGIC: [u8; 4] = *b"TLDG";

/// A block device, as an opening finds it.
#[derive(Clone, Copy)]
pub struct Disk {
    /// How many bytes it has.
    pub length: u64,
    /// The system's number for it.
    pub number: DeviceNumber,
}

/// How many sectors a disk of so many bytes has.
pub(crate) fn disk_sectors(length: u64) -> Result<u64, FileFault>
    ensures sectors { IfOk result (λ sectors. sectors ≡ length / 512) }
    ensures fits { IfOk result (λ sectors. sectors * 512 < 2 ^ 63) }
{
    let sectors = length / SECTOR_LENGTH;
    check_length(sectors)?;
    Ok(sectors)
}

/// The same of a disk that is to be written, if nothing else uses it.
pub(crate) fn idle_disk_sectors<R: Files>(
    rt: &R,
    alloc: Global,
    disk: Disk,
) -> Result<u64, FileFault>
    ensures sectors { IfOk result (λ sectors. sectors ≡ disk.length / 512) }
    ensures fits { IfOk result (λ sectors. sectors * 512 < 2 ^ 63) }
{
    check_idle(rt, alloc, disk.number)?;
    disk_sectors(disk.length)
}

/// That a disk that is locked has as many sectors as are wanted, and holds a ledger or nothing or
/// may be written over. It is synced then, and never grown or cut. `front` is room for its first
/// sectors.
pub(crate) fn make_sure_of_disk<F: DeviceFile>(
    file: &F,
    sectors: u64,
    wanted: DeviceNeeds,
    front: &mut [Sector],
) -> Result<(), FileFault>
    ensures enough { OnOk result (wanted.sectors ≤ sectors) }
{
    check_sectors(sectors, wanted.sectors)?;
    if !wanted.overwrite {
        look_at_front(file, sectors, front)?;
    }
    file.sync_all().map_err(FileFault::of_writing)?;
    Ok(())
}

// That a disk has as many sectors as are asked for.
fn check_sectors(sectors: u64, asked: u64) -> Result<(), FileFault>
    ensures enough { IsOk result ↔ (asked ≤ sectors) }
    ensures too_small { (result ≡ Err FileFault.DiskTooSmall) ↔ (sectors < asked) }
{
    if sectors < asked {
        return Err(FileFault::DiskTooSmall);
    }
    Ok(())
}

// Reads the first sectors, as many as there is room for, and refuses those of somebody else.
fn look_at_front<F: DeviceFile>(
    file: &F,
    sectors: u64,
    front: &mut [Sector],
) -> Result<(), FileFault> {
    let count = sectors.min(front.len() as u64) as usize;
    let bytes = front[..count].as_flattened_mut();
    file.read_exact_at(bytes, 0).map_err(FileFault::of_writing)?;
    if may_be_written(bytes) {
        return Ok(());
    }
    Err(FileFault::DiskHasNoLedger)
}

/// Whether a disk that begins with these bytes holds a ledger, or nothing where other systems keep
/// their marks.
fn may_be_written(bytes: &[u8]) -> bool
    ensures { IsTrue result ↔ (BeginsAsLedger bytes.now ⊎ IsZero bytes.now) }
{
    bytes.starts_with(&MAGIC) || bytes.iter().all(|byte| *byte == 0)
}
