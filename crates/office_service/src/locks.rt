//! The locks of counters' folders, each of which a client holds for as long as it speaks there.
use crate::counter_fault::{CounterFault, CounterFile, CounterRefusal};
use office_sessions::Clients;
use std::alloc::{AllocError, Global};
use std::fs;
use std::fs::{File, Files, OpenOptions, TryLockError};
use std::thread::sleep;
use std::time::{Clock, Duration};

/// How many milliseconds lie between the two times that a lock is tried.
const PAUSE: u64 = 100;

/// The lock of a counter's folder, for as long as the file is open. It is made where it isn't
/// there. It is tried twice, since an office that tells how it stands has it for a moment.
///
/// # Errors
/// `HasClient` if another client has it. `NoLock` if it can't be opened, made or locked, or if
/// there is no memory.
pub(crate) fn lock_folder<'a, R: Files<File = File> + AllocGlobal + Clock>(
    rt: &R,
    folder: &'a str,
) -> Result<File, CounterFault<'a>> {
    let no_lock = CounterFault::new(folder, CounterFile::Lock, CounterRefusal::NoLock);
    let path = path_of(rt.alloc(), folder).or(Err(no_lock))?;
    let mut how = OpenOptions::new();
    how.read(true).write(true).create(true);
    let file = how
        .open(rt, path.as_str())
        .or_else(|_| reading(rt, path.as_str()))
        .or(Err(no_lock))?;
    if matches!(file.try_lock(), Err(TryLockError::WouldBlock)) {
        sleep(rt, Duration::from_millis(PAUSE));
    }
    match file.try_lock() {
        Ok(()) => Ok(file),
        Err(TryLockError::WouldBlock) => Err(CounterFault::new(
            folder,
            CounterFile::Folder,
            CounterRefusal::HasClient,
        )),
        Err(TryLockError::Error(_)) => Err(no_lock),
    }
}

/// Who sees whether a client holds the lock of a counter's folder.
pub trait Locks {
    /// Whether one does. For a moment the lock is held here, if nobody has it.
    fn has_client(&self, folder: &str) -> bool;
}

/// The locks as files of a runtime.
#[derive(Clone, Copy)]
pub struct FileLocks<R>(pub R);

impl<R: Files<File = File> + AllocGlobal> Locks for FileLocks<R> {
    fn has_client(&self, folder: &str) -> bool {
        let rt = &self.0;
        let Ok(path) = path_of(rt.alloc(), folder) else {
            return false;
        };
        // the opening of a pipe would wait
        match fs::metadata(rt, path.as_str()) {
            Ok(found) if found.is_file() => {}
            _ => return false,
        }
        match reading(rt, path.as_str()) {
            Ok(file) => matches!(file.try_lock_shared(), Err(TryLockError::WouldBlock)),
            Err(_) => false,
        }
    }
}

/// The folder of a counter that has its station.
#[derive(Drop)]
pub(crate) struct SeatedFolder {
    pub folder: String,
    pub station: u8,
}

/// Who sees which counters of an office have clients.
#[derive(Drop)]
pub(crate) struct SeatedClients<L> {
    pub locks: L,
    pub folders: Vec<SeatedFolder>,
}

impl<L: Locks> Clients for SeatedClients<L> {
    fn others(&mut self, station: u8) -> u64 {
        let mut count: u64 = 0;
        for counter in &self.folders {
            if counter.station != station && self.locks.has_client(counter.folder.as_str()) {
                count = count.saturating_add(1);
            }
        }
        count
    }
}

// A file, open for reading.
fn reading<R: Files<File = File>>(rt: &R, path: &str) -> std::io::Result<File> {
    let mut how = OpenOptions::new();
    how.read(true);
    how.open(rt, path)
}

fn path_of(alloc: Global, folder: &str) -> Result<String, AllocError> {
    format!(in alloc; "{folder}/lock")
}
