//! What the system's tables say of a disk.
use crate::refusal::FileFault;
use std::alloc::Global;
use std::fs::Files;
use std::io::ErrorKind;
use std::os::unix::fs::{FileTypeExt, MetadataExt};
use std::{fmt, fs, io, str};

/// The system's tables of what is mounted and of where it swaps.
const MOUNTS: &str = "/proc/self/mountinfo";

const SWAPS: &str = "/proc/swaps";

/// The number of a block device, as the system prints it: `8:16`.
#[derive(Clone, Copy, Debug, PartialEq, Eq)]
pub struct DeviceNumber {
    major: u64,
    minor: u64,
}

/// The number that Linux keeps in one word.
impl From<u64> for DeviceNumber {
    fn from(word: u64) -> DeviceNumber {
        DeviceNumber {
            major: ((word >> 8) & 0xfff) | ((word >> 32) & 0xffff_f000),
            minor: (word & 0xff) | ((word >> 12) & 0xffff_ff00),
        }
    }
}

impl fmt::Display for DeviceNumber {
    fn fmt<W: fmt::Write>(&self, f: &mut fmt::Formatter<W>) -> fmt::Result {
        write!(f, "{}:{}", self.major, self.minor)
    }
}

/// Refuses a block device that may not be written, by what the system says of it: nobody may, or it
/// is mounted, swapped to, or a part of another one. A system that has no such tables says nothing.
pub(crate) fn check_idle<R: Files>(
    rt: &R,
    alloc: Global,
    number: DeviceNumber,
) -> Result<(), FileFault> {
    if is_read_only(rt, alloc, number).map_err(FileFault::of_writing)? {
        return Err(FileFault::DiskDenied);
    }
    if is_in_use(rt, alloc, number).map_err(FileFault::of_writing)? {
        return Err(FileFault::DiskInUse);
    }
    Ok(())
}

fn is_read_only<R: Files>(rt: &R, alloc: Global, number: DeviceNumber) -> io::Result<bool> {
    let path = format!(in alloc; "/sys/dev/block/{number}/ro")?;
    Ok(told(rt, alloc, path.as_str())?.as_slice() == b"1\n".as_slice())
}

fn is_in_use<R: Files>(rt: &R, alloc: Global, number: DeviceNumber) -> io::Result<bool> {
    let name = format!(in alloc; "{number}")?;
    let mounts = told(rt, alloc, MOUNTS)?;
    let swaps = told(rt, alloc, SWAPS)?;
    let holders = format!(in alloc; "/sys/dev/block/{number}/holders")?;
    Ok(
        is_mounted(rt, &mounts, name.as_bytes(), number)
            || is_swapped_to(rt, &swaps, number)
            || has_entries(rt, alloc, holders.as_str())?,
    )
}

// What stands in one of the system's tables, if there is one.
fn told<R: Files>(rt: &R, alloc: Global, path: &str) -> io::Result<Vec<u8>> {
    match fs::read(&(rt, alloc), path) {
        Err(error) if error.kind() == ErrorKind::NotFound => Ok(Vec::new(alloc)),
        outcome => outcome,
    }
}

// Whether a line has this number, or tells of a node with it. Some file systems have a number of
// their own.
fn is_mounted<R: Files>(rt: &R, mounts: &[u8], name: &[u8], number: DeviceNumber) -> bool {
    for line in mounts.split(|byte| *byte == b'\n') {
        if number_in(line) == Some(name) || is_node(rt, source_in(line), number) {
            return true;
        }
    }
    false
}

/// The number of the device in a line of `/proc/self/mountinfo`.
pub(crate) fn number_in(line: &[u8]) -> Option<&[u8]> {
    line.split(|byte| *byte == b' ').nth(2)
}

/// What is mounted by such a line: the second word behind the one that is a dash.
pub(crate) fn source_in(line: &[u8]) -> Option<&[u8]> {
    line.split(|byte| *byte == b' ')
        .skip_while(|word| *word != b"-".as_slice())
        .nth(2)
}

// Whether a line begins with the path of this device.
fn is_swapped_to<R: Files>(rt: &R, swaps: &[u8], number: DeviceNumber) -> bool {
    for line in swaps.split(|byte| *byte == b'\n') {
        if is_node(rt, line.split(|byte| *byte == b' ').next(), number) {
            return true;
        }
    }
    false
}

// Whether this is the path of the block device with this number.
fn is_node<R: Files>(rt: &R, path: Option<&[u8]>, number: DeviceNumber) -> bool {
    match str::from_utf8(path.unwrap_or(b"")) {
        Ok(path) if path.starts_with('/') => match fs::metadata(rt, path) {
            Ok(found) => {
                found.file_type().is_block_device() && DeviceNumber::from(found.rdev()) == number
            }
            Err(_) => false,
        },
        _ => false,
    }
}

/// Whether there is anything in a folder, if it is there.
pub(crate) fn has_entries<R: Files>(rt: &R, alloc: Global, folder: &str) -> io::Result<bool> {
    match fs::read_dir(&(rt, alloc), folder) {
        Ok(mut entries) => Ok(entries.next().is_some()),
        Err(error) if error.kind() == ErrorKind::NotFound => Ok(false),
        Err(error) => Err(error),
    }
}
