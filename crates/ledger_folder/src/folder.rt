//! The folder of an archive.
ghost use Rattle.std.specs.Prelude.{IfErr};
ghost use Rattle.ledger_folder.specs.Faults.{IsElsewhere};

use crate::faults::{ArchiveFault, Volume};
use device_files::FileNumber;
use std::alloc::{AllocError, Global};
use std::fs::{File, Files, TryLockError};
use std::io::ErrorKind;
use std::{fs, io};

/// How many digits the name of a ledger has.
const DIGITS: usize = 20;

/// The folder of an archive, or of copies, open and locked: nobody else adds anything meanwhile.
#[derive(Drop)]
pub struct LockedFolder<'a> {
    pub(crate) path: &'a str,
    file: File,
}

impl<'a> LockedFolder<'a> {
    /// Opens and locks it.
    ///
    /// # Errors
    /// [`ArchiveFault`] of a folder.
    pub fn open<R: Files<File = File>>(
        rt: &R,
        path: &'a str,
    ) -> Result<LockedFolder<'a>, ArchiveFault<'a>>
        ensures { IfErr result IsElsewhere }
    {
        let file = open_locked(rt, path)?;
        Ok(LockedFolder { path, file })
    }

    /// The same for whoever adds to it. The folder is synced: an earlier run may have been ended
    /// between giving a file its name and that sync, and then a power failure would take what is
    /// built on.
    ///
    /// # Errors
    /// As of [`LockedFolder::open`], or the folder can't be synced.
    pub fn open_to_add<R: Files<File = File>>(
        rt: &R,
        path: &'a str,
    ) -> Result<LockedFolder<'a>, ArchiveFault<'a>>
        ensures { IfErr result IsElsewhere }
    {
        let folder = LockedFolder::open(rt, path)?;
        match folder.sync() {
            Ok(()) => Ok(folder),
            Err(error) => Err(folder.fault(&error)),
        }
    }

    /// Its path.
    pub fn path(&self) -> &'a str {
        self.path
    }

    /// Makes the names in it durable.
    pub(crate) fn sync(&self) -> io::Result<()> {
        self.file.sync_all()
    }

    /// The newest ledger in it: the one with the greatest number.
    pub(crate) fn newest<R: Files<File = File> + AllocGlobal + Clone + Drop>(
        &self,
        rt: &R,
    ) -> Result<Option<Volume<'a>>, ArchiveFault<'a>>
        ensures { IfErr result IsElsewhere }
    {
        match greatest_number(rt, self.path) {
            Ok(Some(base)) => Ok(Some(self.volume(base))),
            Ok(None) => Ok(None),
            Err(error) => Err(self.fault(&error)),
        }
    }

    /// The ledger that begins with that number.
    pub(crate) fn volume(&self, base: u64) -> Volume<'a> {
        let folder = self.path;
        Volume { folder, base }
    }

    /// Gives the ledger that was made under another name its own, durably.
    pub(crate) fn put_in_place<R: Files<File = File>>(
        &self,
        rt: &R,
        from: &str,
        to: &str,
    ) -> Result<(), ArchiveFault<'a>>
        ensures { IfErr result IsElsewhere }
    {
        match self.rename(rt, from, to) {
            Ok(()) => Ok(()),
            Err(error) => Err(self.fault(&error)),
        }
    }

    fn rename<R: Files<File = File>>(&self, rt: &R, from: &str, to: &str) -> io::Result<()> {
        fs::rename(rt, from, to)?;
        self.sync()
    }

    /// Removes what an earlier run left under the other name, if there is anything.
    pub(crate) fn clear<R: Files<File = File>>(
        &self,
        rt: &R,
        unfinished: &str,
    ) -> Result<(), ArchiveFault<'a>>
        ensures { IfErr result IsElsewhere }
    {
        match fs::remove_file(rt, unfinished) {
            Ok(()) => Ok(()),
            Err(error) if error.kind() == ErrorKind::NotFound => Ok(()),
            Err(error) => Err(self.fault(&error)),
        }
    }

    /// The path under which a file is made, before it gets its own name.
    pub(crate) fn unfinished(&self, alloc: Global) -> Result<String, AllocError> {
        let folder = self.path;
        format!(in alloc; "{folder}/unfinished")
    }

    /// Whether a file can be made in it, which is taken away again. So is one of that name from
    /// before.
    pub(crate) fn can_be_written<R: Files<File = File>>(&self, rt: &R, unfinished: &str) -> bool {
        if self.clear(rt, unfinished).is_err() || fs::create(rt, unfinished).is_err() {
            return false;
        }
        self.clear(rt, unfinished).is_ok()
    }

    /// Removes a file, as far as the system lets it.
    pub(crate) fn take_away<R: Files<File = File>>(&self, rt: &R, unfinished: &str) {
        let _ = self.clear(rt, unfinished);
    }

    // That the system fails.
    fn fault(&self, error: &io::Error) -> ArchiveFault<'a>
        ensures { IsElsewhere result }
    {
        fault_of(self.path, error)
    }
}

/// Whether two paths are of one folder, by whatever names. What can't be looked at is no folder.
pub fn are_one_folder<R: Files<File = File>>(rt: &R, first: &str, second: &str) -> bool {
    match (fs::metadata(rt, first), fs::metadata(rt, second)) {
        (Ok(first), Ok(second)) => FileNumber::of(&first) == FileNumber::of(&second),
        _ => false,
    }
}

/// Whether there is a folder at the path.
pub fn is_folder<R: Files<File = File>>(rt: &R, path: &str) -> bool {
    match fs::metadata(rt, path) {
        Ok(found) => found.is_dir(),
        Err(_) => false,
    }
}

/// The numbers that are names in a folder, ascending: each is that of the first batch of a ledger
/// of its archive.
///
/// # Errors
/// `Empty` if there is none; and if the folder can't be listed, or out of memory.
pub fn numbers_in<'a, R: Files<File = File> + AllocGlobal + Clone + Drop>(
    rt: &R,
    folder: &'a str,
) -> Result<Vec<u64>, ArchiveFault<'a>>
    ensures { IfErr result IsElsewhere }
{
    match read_numbers(rt, folder) {
        Ok(numbers) if numbers.is_empty() => Err(ArchiveFault::Empty(folder)),
        Ok(numbers) => Ok(numbers),
        Err(error) => Err(fault_of(folder, &error)),
    }
}

fn read_numbers<R: Files<File = File> + AllocGlobal + Clone + Drop>(
    rt: &R,
    folder: &str,
) -> io::Result<Vec<u64>> {
    let mut numbers = Vec::new(rt.alloc());
    for entry in fs::read_dir(rt, folder)? {
        let entry = entry?;
        if let Some(number) = number_of(entry.file_name()) {
            numbers.push(number)?;
        }
    }
    numbers.sort()?;
    Ok(numbers)
}

// That the system fails at a folder.
fn fault_of<'a>(folder: &'a str, error: &io::Error) -> ArchiveFault<'a>
    ensures { IsElsewhere result }
{
    if error.kind() == ErrorKind::OutOfMemory {
        return ArchiveFault::Memory;
    }
    ArchiveFault::FolderFailed(folder)
}

// A folder, open and locked. What is none isn't opened: a pipe would wait for a writer.
fn open_locked<'a, R: Files<File = File>>(rt: &R, path: &'a str) -> Result<File, ArchiveFault<'a>>
    ensures { IfErr result IsElsewhere }
{
    let failed = ArchiveFault::FolderFailed(path);
    match fs::metadata(rt, path) {
        Ok(found) if found.is_dir() => {}
        Ok(_) => return Err(ArchiveFault::NoFolder(path)),
        Err(error) if error.kind() == ErrorKind::NotFound => {
            return Err(ArchiveFault::NoSuchFolder(path));
        }
        Err(_) => return Err(failed),
    }
    let file = fs::open(rt, path).or(Err(failed))?;
    match file.try_lock() {
        Ok(()) => Ok(file),
        Err(TryLockError::WouldBlock) => Err(ArchiveFault::FolderInUse(path)),
        Err(TryLockError::Error(_)) => Err(failed),
    }
}

// The greatest number that is a name in a folder.
fn greatest_number<R: Files<File = File> + AllocGlobal + Clone + Drop>(
    rt: &R,
    folder: &str,
) -> io::Result<Option<u64>> {
    let mut greatest = None;
    for entry in fs::read_dir(rt, folder)? {
        let entry = entry?;
        greatest = greatest.max(number_of(entry.file_name()));
    }
    Ok(greatest)
}

// The number that a name is, in twenty digits.
fn number_of(name: &str) -> Option<u64> {
    if name.len() != DIGITS || !name.bytes().all(|byte| byte.is_ascii_digit()) {
        return None;
    }
    name.parse::<u64>().ok()
}
