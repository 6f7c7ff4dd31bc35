ghost use Rattle.std.specs.Prelude.{◌≡◌, ◌≢◌, ◌*◌, ◌%◌, ◌<◌, ◌≤◌, ◌^◌, ◌↔◌, ◌<ℤ◌, pos, false, IsOk};
ghost use Rattle.std.specs.Prelude.{IfOk, IfErr, IfSome, Err};
ghost use Rattle.std.specs.Fs.{metadata_len, file_type, IsFile};

use crate::device_file::DeviceFile;
use crate::refusal::FileFault;
use sector_device::SECTOR;
use std::fs::{Files, Metadata, OpenFile, OpenOptions};
use std::io::ErrorKind;
use std::os::fd::{AsRawFd, RawFd};
use std::os::unix::fs::FileTypeExt;
use std::path::Path;
use std::{fs, io};

/// The size of a sector, as a length of a file.
pub(crate) const SECTOR_LENGTH: u64 = SECTOR as u64;

/// The most sectors of a file, whose length the system counts below 2^63.
pub(crate) const MOST_FILE_SECTORS: u64 = i64::MAX as u64 / SECTOR_LENGTH;

/// The number of standard error. Those of standard input and output are lower.
const LAST_STREAM: RawFd = 2;

/// Whether a file is made where there is none.
#[derive(Clone, Copy, Debug, PartialEq, Eq)]
pub enum Creation {
    IfMissing,
    Never,
}

/// A file that is open.
#[derive(Drop)]
pub(crate) struct OpenedFile<F: OpenFile> {
    pub(crate) file: F,
    /// The folder that has its name, unless it may not be read, and so not synced.
    pub(crate) folder: Option<F>,
    /// Whether it was made by this opening.
    pub(crate) is_new: bool,
}

/// What is at the path, which is made if that is asked for and nothing is there, and locked.
pub(crate) fn open_locked<F: DeviceFile + Drop, R: Files<File = F>>(
    rt: &R,
    path: &str,
    making: Creation,
) -> Result<OpenedFile<F>, FileFault>
    ensures not_made { making ≡ Creation.Never → IfOk result (λ opened. opened.is_new ≡ false) }
{
    let OpenedFile {
        file,
        folder,
        is_new,
    } = open_in_folder(rt, path, making)?;
    let file = clear_of_streams(file)?;
    file.try_lock()?;
    Ok(OpenedFile {
        file,
        folder,
        is_new,
    })
}

/// Why what is at the path isn't a device, for a fault of its opening. A disk has faults of its
/// own.
pub(crate) fn cause<R: Files>(rt: &R, path: &str, fault: FileFault) -> FileFault {
    match fs::metadata(rt, path) {
        Ok(found) if found.file_type().is_block_device() => fault.of_disk(),
        _ => fault.for_writing(),
    }
}

// How what is there is opened.
fn existing() -> OpenOptions {
    let mut how = OpenOptions::new();
    how.read(true).write(true);
    how
}

// The file, and the folder that has its name. A folder that may not be read can't be synced: there
// a file is opened, and none is made.
fn open_in_folder<R: Files>(
    rt: &R,
    path: &str,
    making: Creation,
) -> Result<OpenedFile<R::File>, FileFault>
    ensures not_made { making ≡ Creation.Never → IfOk result (λ opened. opened.is_new ≡ false) }
{
    let mut how = existing();
    match how.open(rt, path) {
        Ok(file) => Ok(OpenedFile {
            file,
            folder: readable_folder(rt, path)?,
            is_new: false,
        }),
        Err(error) if error.kind() == ErrorKind::NotFound && making == Creation::IfMissing => {
            let folder = folder_to_make_in(rt, path)?;
            Ok(OpenedFile {
                file: how.create(true).open(rt, path)?,
                folder: Some(folder),
                is_new: true,
            })
        }
        Err(error) => Err(FileFault::from(error)),
    }
}

fn readable_folder<R: Files>(rt: &R, path: &str) -> io::Result<Option<R::File>> {
    match fs::open(rt, folder_of(path)) {
        Ok(folder) => Ok(Some(folder)),
        Err(error) if error.kind() == ErrorKind::PermissionDenied => Ok(None),
        Err(error) => Err(error),
    }
}

fn folder_to_make_in<R: Files>(rt: &R, path: &str) -> Result<R::File, FileFault> {
    match fs::open(rt, folder_of(path)) {
        Ok(folder) => Ok(folder),
        Err(error) => Err(match FileFault::from(error) {
            FileFault::Missing => FileFault::NoFolder,
            fault => fault,
        }),
    }
}

fn folder_of(path: &str) -> Path<'_> {
    match Path::new(path).parent() {
        Some(folder) if !folder.as_str().is_empty() => folder,
        _ => Path::new("."),
    }
}

/// Moves a file off the numbers of the standard streams: where one of these is closed, what is
/// printed to it would land in the file.
///
/// # Errors
/// The system gives it no other number.
pub fn clear_of_streams<F: OpenFile + AsRawFd + Drop>(file: F) -> io::Result<F>
    ensures clear { IfOk result (λ file. IfSome (F.raw_fd file) (λ number. pos 2 <ℤ number)) }
{
    if file.as_raw_fd() > LAST_STREAM {
        return Ok(file);
    }
    let moved = file.try_clone()?;
    if moved.as_raw_fd() > LAST_STREAM {
        return Ok(moved);
    }
    Err(io::Error::from(ErrorKind::Other))
}

/// That a file may have so many sectors.
pub(crate) fn check_length(sectors: u64) -> Result<(), FileFault>
    ensures fits { IsOk result ↔ (sectors * 512 < 2 ^ 63) }
    ensures refused { IfErr result (λ fault. fault ≡ FileFault.NoRoom) }
{
    if sectors > MOST_FILE_SECTORS {
        return Err(FileFault::NoRoom);
    }
    Ok(())
}

/// How many sectors a file has, if it is a regular one of whole sectors.
pub(crate) fn whole_sectors(metadata: &Metadata) -> Result<u64, FileFault>
    ensures whole { IfOk result (λ sectors.
        IsFile (file_type metadata.now) × (metadata_len metadata.now ≡ sectors * 512)) }
    ensures fits { IfOk result (λ sectors. sectors * 512 < 2 ^ 63) }
    ensures no_file { (result ≡ Err FileFault.NoFile) ↔ (IsFile (file_type metadata.now) → ⊥) }
    ensures not_sectors { (result ≡ Err FileFault.NotSectors)
        ↔ (IsFile (file_type metadata.now) × (metadata_len metadata.now % 512 ≢ 0)) }
    ensures accepted { IsFile (file_type metadata.now)
        → metadata_len metadata.now % 512 ≡ 0 → metadata_len metadata.now < 2 ^ 63 → IsOk result }
{
    let length = metadata.len();
    if !metadata.is_file() {
        return Err(FileFault::NoFile);
    }
    if length % SECTOR_LENGTH != 0 {
        return Err(FileFault::NotSectors);
    }
    check_length(length / SECTOR_LENGTH)?;
    Ok(length / SECTOR_LENGTH)
}
