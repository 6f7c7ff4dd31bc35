//! Speaking at an office from outside, at one of its counters.
use crate::counter_fault::{CounterFault, CounterFile, CounterRefusal};
use crate::locks::lock_folder;
use crate::pipes::find_pipe;
use std::fs::{File, Files, TryLockError};
use std::time::Clock;
use text_streams::write_all;

/// Who speaks at the counter of a folder, whose lock it holds.
#[derive(Drop)]
pub(crate) struct Speaker<'a> {
    folder: &'a str,
    pipe: File,
    // held until it is dropped
    _lock: File,
}

impl<'a> Speaker<'a> {
    /// At a counter that an office has, and no other client.
    pub(crate) fn at<R: Files<File = File> + AllocGlobal + Clock>(
        rt: &R,
        folder: &'a str,
    ) -> Result<Speaker<'a>, CounterFault<'a>> {
        let (pipe, _) = find_pipe(rt, folder, CounterFile::In)?;
        if !is_held(&pipe, folder)? {
            return Err(CounterFault::new(folder, CounterFile::Folder, CounterRefusal::NotOpen));
        }
        Ok(Speaker {
            folder,
            pipe,
            _lock: lock_folder(rt, folder)?,
        })
    }

    /// Says these lines.
    pub(crate) fn say(&mut self, lines: &[u8]) -> Result<(), CounterFault<'a>> {
        let unwritten = CounterFault::new(self.folder, CounterFile::In, CounterRefusal::Unwritten);
        write_all(&mut self.pipe, lines).or(Err(unwritten))
    }

    /// Whether the office still has the counter.
    pub(crate) fn is_heard(&self) -> Result<bool, CounterFault<'a>> {
        is_held(&self.pipe, self.folder)
    }
}

// Whether an office has the pipe, which it has locked.
fn is_held<'a>(pipe: &File, folder: &'a str) -> Result<bool, CounterFault<'a>> {
    let unlocked = CounterFault::new(folder, CounterFile::In, CounterRefusal::Unlocked);
    match pipe.try_lock() {
        Ok(()) => pipe.unlock().and(Ok(false)).or(Err(unlocked)),
        Err(TryLockError::WouldBlock) => Ok(true),
        Err(TryLockError::Error(_)) => Err(unlocked),
    }
}
