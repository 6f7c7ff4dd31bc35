//! Files and disks that are open and locked, and not yet devices.
ghost use Rattle.std.specs.Prelude.{◌≡◌, ◌*◌, ◌<◌, ◌^◌, false, true, max, length, vec_len, None};
ghost use Rattle.std.specs.Prelude.{IsSome, IfOk, OnOk};
ghost use Rattle.device_files.specs.ReadBuffer.{IsEmpty};
ghost use Rattle.device_files.specs.LockedFile.{LockedState};
ghost use Rattle.device_files.specs.Opened.{IsJustOpened};

use crate::buffer::ReadBuffer;
use crate::device::{DeviceOn, device_over};
use crate::device_file::DeviceFile;
use crate::disk::{idle_disk_sectors, make_sure_of_disk};
use crate::growth::grow;
use crate::new_file::{FileNumber, NewFile};
use crate::opening::{
    Creation, OpenedFile, SECTOR_LENGTH, cause, check_length, open_locked, whole_sectors,
};
use crate::refusal::FileFault;
use crate::sector_file::SectorFile;
use sector_device::{SECTOR, Sector};
use std::alloc::{AllocError, Global};
use std::fs::Files;
use std::marker::Model;
use std::os::unix::fs::FileExt;

/// How many sectors a file grows by in one write, and are read in one call of what isn't a device
/// yet: 128 KiB.
const PIECE: usize = 256;

/// What is wanted of a device.
#[derive(Clone, Copy, Debug, PartialEq, Eq)]
pub struct DeviceNeeds {
    /// How many sectors it has to have at least.
    pub sectors: u64,
    /// Whether a disk may hold anything. Else it has to begin as a ledger does, or its first 256
    /// sectors are zeros.
    pub overwrite: bool,
}

/// A file or a disk that is open and locked, and not a device yet. It was made if that was asked
/// for, and else nothing of it has changed; nothing is written to it before
/// [`into_device`](LockedFile::into_device). The memory that a device takes is there already.
#[derive(Drop)]
pub struct LockedFile<'a, F: DeviceFile> {
    path: &'a str,
    opened: OpenedFile<F>,
    number: FileNumber,
    sectors: u64,
    is_disk: bool,
    buffer: ReadBuffer,
    zeros: Vec<Sector>,
}

impl<'a, F: DeviceFile> Model for LockedFile<'a, F> {
    ghost Value = { LockedState };

    ghost view = { λ l. record {
      sectors = l.sectors;
      is_disk = l.is_disk;
      is_new = l.opened.is_new;
    } };

    ghost invariant = { λ l. (l.sectors * 512 < 2 ^ 63) × (0 < vec_len l.zeros) × IsEmpty l.buffer };
}

impl<'a, F: DeviceFile + Drop> LockedFile<'a, F> {
    /// Opens and locks what is at the path, which is made as an empty file if that is asked for and
    /// nothing is there. A disk is refused if it is in use.
    pub fn open<R: Files<File = F>>(
        rt: &R,
        alloc: Global,
        path: &'a str,
        making: Creation,
    ) -> Result<LockedFile<'a, F>, FileFault>
        ensures fits { IfOk result (λ file. file.sectors * 512 < 2 ^ 63) }
        ensures not_made { making ≡ Creation.Never → IfOk result (λ file. file.is_new ≡ false) }
    {
        let buffer = ReadBuffer::new(alloc)?;
        let zeros = zero_sectors(alloc)?;
        let opened = match open_locked(rt, path, making) {
            Ok(opened) => opened,
            Err(fault) => return Err(cause(rt, path, fault)),
        };
        let metadata = opened.file.metadata().map_err(FileFault::of_writing)?;
        let disk = opened.file.disk(&metadata).map_err(FileFault::of_writing)?;
        let sectors = match disk {
            Some(disk) => idle_disk_sectors(rt, alloc, disk)?,
            None => whole_sectors(&metadata)?,
        };
        Ok(LockedFile {
            path,
            opened,
            number: FileNumber::of(&metadata),
            sectors,
            is_disk: disk.is_some(),
            buffer,
            zeros,
        })
    }

    /// How many sectors it has.
    pub fn sectors(&self) -> u64
        ensures { result ≡ self.now.sectors }
    {
        self.sectors
    }

    /// Whether it is a disk, and no regular file.
    pub fn is_disk(&self) -> bool
        ensures { result ≡ self.now.is_disk }
    {
        self.is_disk
    }

    /// The file, if this opening made it, so that it can be taken back.
    pub fn made(&self) -> Option<NewFile<'a>>
        ensures not_made { self.now.is_new ≡ false → result ≡ None }
        ensures made { self.now.is_new ≡ true → IsSome result }
    {
        let (path, number) = (self.path, self.number);
        self.opened.is_new.then_some(NewFile { path, number })
    }

    /// Its first sector, and zeros if it has none.
    ///
    /// # Errors
    /// It can't be read.
    pub fn first_sector(&self) -> Result<Sector, FileFault> {
        let mut bytes = [0; SECTOR];
        if self.sectors > 0 {
            let read = self.opened.file.read_exact_at(&mut bytes, 0);
            read.map_err(FileFault::of_writing)?;
        }
        Ok(bytes)
    }

    /// Whether each of its bytes is zero.
    ///
    /// # Errors
    /// It can't be read, or there is no memory for 128 KiB.
    pub fn is_blank(&self, alloc: Global) -> Result<bool, FileFault> {
        let mut piece = zero_sectors(alloc)?;
        let mut at = 0;
        while at < self.sectors {
            let count = (self.sectors - at).min(PIECE as u64);
            let bytes = piece[..count as usize].as_flattened_mut();
            let read = self.opened.file.read_exact_at(bytes, at * SECTOR_LENGTH);
            read.map_err(FileFault::of_writing)?;
            if !bytes.iter().all(|byte| *byte == 0) {
                return Ok(false);
            }
            at += count;
        }
        Ok(true)
    }

    /// Makes a device of it, with at least so many sectors. Zero sectors are written at the end of
    /// a file until it has them; one that is longer stays as it is. Then it is synced, and the
    /// folder that it lies in, unless that may not be read. If the file was made by this opening
    /// and this fails, it is removed.
    ///
    /// A disk has to have that many sectors, and is neither grown nor cut.
    pub fn into_device<R: Files<File = F>>(
        self,
        rt: &R,
        wanted: DeviceNeeds,
    ) -> Result<DeviceOn<F>, FileFault>
        ensures sectors { IfOk result (λ device.
            device.inner.sectors ≡ max self.entry.sectors wanted.sectors) }
        ensures disk { self.entry.is_disk ≡ true → IfOk result (λ device.
            device.inner.sectors ≡ self.entry.sectors) }
        ensures opened { IfOk result IsJustOpened }
    {
        let made = self.made();
        let LockedFile {
            opened,
            sectors,
            is_disk,
            buffer,
            mut zeros,
            ..
        } = self;
        if is_disk {
            make_sure_of_disk(&opened.file, sectors, wanted, zeros.as_mut_slice())?;
        } else if let Err(fault) = lengthen(&opened, sectors, wanted.sectors, zeros.as_slice()) {
            if let Some(made) = made {
                made.remove(rt);
            }
            return Err(fault.for_writing());
        }
        let OpenedFile { file, .. } = opened;
        let file = SectorFile::new(file, sectors.max(wanted.sectors));
        Ok(device_over(file, buffer))
    }
}

// So many zero sectors as a piece has.
fn zero_sectors(alloc: Global) -> Result<Vec<Sector>, AllocError>
    ensures { IfOk result (λ zeros. vec_len zeros ≡ 256) }
{
    vec![in alloc; [0; SECTOR]; PIECE]
}

// Grows a file until it has so many sectors, and syncs it and the folder that has its name.
fn lengthen<F: DeviceFile + Drop>(
    opened: &OpenedFile<F>,
    found: u64,
    sectors: u64,
    zeros: &[Sector],
) -> Result<(), FileFault>
    requires found { found * 512 < 2 ^ 63 }
    requires some { 0 < length zeros.now }
    ensures fits { OnOk result (sectors * 512 < 2 ^ 63) }
{
    check_length(sectors)?;
    grow(&opened.file, found, sectors, zeros)?;
    opened.file.sync_all()?;
    if let Some(folder) = &opened.folder {
        folder.sync_all()?;
    }
    Ok(())
}
