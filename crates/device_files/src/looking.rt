//! Files that are looked at, and never written.
ghost use Rattle.std.specs.Prelude.{◌≡◌, ◌*◌, ◌<◌, ◌^◌, IfOk};

use crate::buffer::ReadBuffer;
use crate::device_file::DeviceFile;
use crate::disk::disk_sectors;
use crate::opening::whole_sectors;
use crate::read_ahead::ReadAhead;
use crate::read_only::ReadOnly;
use crate::refusal::FileFault;
use crate::sector_file::SectorFile;
use std::alloc::Global;
use std::fs;
use std::fs::{File, Files, Metadata};
use std::os::unix::fs::FileTypeExt;

/// A file or a disk that is only read, through a buffer of 128 KiB. Nothing is promised of what it
/// holds.
pub type ReadOnlyFile = ReadOnlyOn<File>;

/// The same of whatever files these are.
pub type ReadOnlyOn<F> = ReadOnly<ReadAhead<SectorFile<F>>>;

/// How others are kept off a file while it is looked at.
#[derive(Clone, Copy, Debug, PartialEq, Eq)]
pub enum LockMode {
    /// Others may look at it, and nobody may have it as a device.
    Shared,
    /// Not at all: another program may have it, and what is read may be torn.
    Unlocked,
}

impl<F: DeviceFile + Drop> ReadOnlyOn<F> {
    /// Opens a file or a disk for reading alone. It isn't made, grown, synced or written.
    pub fn open<R: Files<File = F>>(
        rt: &R,
        alloc: Global,
        path: &str,
        locking: LockMode,
    ) -> Result<ReadOnlyOn<F>, FileFault>
        ensures fits { IfOk result (λ device. device.inner.sectors * 512 < 2 ^ 63) }
        ensures failures { IfOk result (λ device.
            (device.inner.failures ≡ 0) × (device.refused ≡ 0)) }
    {
        let buffer = ReadBuffer::new(alloc)?;
        let file = open_locked(rt, path, locking)?;
        let sectors = sectors_of(&file)?;
        let file = SectorFile::new(file, sectors);
        Ok(ReadOnly::new(ReadAhead::new(file, buffer)))
    }
}

// What is at the path, opened for reading. A pipe is refused before it is opened, which would wait
// for a writer.
fn open_locked<F: DeviceFile + Drop, R: Files<File = F>>(
    rt: &R,
    path: &str,
    locking: LockMode,
) -> Result<F, FileFault> {
    let found = fs::metadata(rt, path)?;
    if !is_file_or_disk(&found) {
        return Err(FileFault::NoFile);
    }
    let file = fs::open(rt, path)?;
    if locking == LockMode::Shared {
        file.try_lock_shared()?;
    }
    Ok(file)
}

fn is_file_or_disk(metadata: &Metadata) -> bool {
    metadata.is_file() || metadata.file_type().is_block_device()
}

// How many sectors it has.
fn sectors_of<F: DeviceFile>(file: &F) -> Result<u64, FileFault>
    ensures fits { IfOk result (λ sectors. sectors * 512 < 2 ^ 63) }
{
    let metadata = file.metadata()?;
    match file.disk(&metadata)? {
        Some(disk) => disk_sectors(disk.length),
        None => whole_sectors(&metadata),
    }
}
