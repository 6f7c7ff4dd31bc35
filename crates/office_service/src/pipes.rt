//! The named pipes of counters.
ghost use Rattle.std.specs.Prelude.{◌<ℤ◌, pos, IfOk};
ghost use Rattle.std.specs.Fd.{file_raw_fd};

use crate::counter_fault::{CounterFault, CounterFile, CounterRefusal};
use device_files::{FileNumber, clear_of_streams};
use std::fs::{File, Files, OpenFile, OpenOptions, TryLockError};
use std::io;
use std::io::ErrorKind;
use std::os::unix::fs::FileTypeExt;

/// Opens a pipe in a counter's folder, for reading and writing: so it never ends, whoever hangs up.
/// It is none of those that were opened before, and becomes one. It is locked for as long as it is
/// open, since each of two offices would read a part of what its counter says.
///
/// # Errors
/// [`CounterFault`].
pub(crate) fn open_pipe<'a, R: Files<File = File> + AllocGlobal>(
    rt: &R,
    folder: &'a str,
    pipe: CounterFile,
    opened: &mut Vec<FileNumber>,
) -> Result<File, CounterFault<'a>>
    ensures clear { IfOk result (λ file. pos 2 <ℤ file_raw_fd file) }
{
    let (file, number) = find_pipe(rt, folder, pipe)?;
    own_pipe(file, number, opened).map_err(|refusal| CounterFault::new(folder, pipe, refusal))
}

// Notes and locks a pipe.
fn own_pipe(
    file: File,
    number: FileNumber,
    opened: &mut Vec<FileNumber>,
) -> Result<File, CounterRefusal>
    ensures clear { IfOk result (λ file. pos 2 <ℤ file_raw_fd file) }
{
    note_pipe(number, opened)?;
    match file.try_lock() {
        Ok(()) => clear_of_streams(file).or(Err(CounterRefusal::Unopened)),
        Err(TryLockError::WouldBlock) => Err(CounterRefusal::InUse),
        Err(TryLockError::Error(_)) => Err(CounterRefusal::Unlocked),
    }
}

/// A pipe in a counter's folder, open for reading and writing, and which one it is.
pub(crate) fn find_pipe<'a, R: Files<File = File> + AllocGlobal>(
    rt: &R,
    folder: &'a str,
    pipe: CounterFile,
) -> Result<(File, FileNumber), CounterFault<'a>> {
    let mut how = OpenOptions::new();
    how.read(true).write(true);
    let file = open_at(rt, folder, pipe, &how)?;
    match file.metadata() {
        Ok(found) if found.file_type().is_fifo() => Ok((file, FileNumber::of(&found))),
        _ => Err(CounterFault::new(folder, pipe, CounterRefusal::NoPipe)),
    }
}

// What stands at a pipe's path, opened.
fn open_at<'a, R: Files<File = File> + AllocGlobal>(
    rt: &R,
    folder: &'a str,
    pipe: CounterFile,
    how: &OpenOptions,
) -> Result<File, CounterFault<'a>> {
    let name = pipe.name();
    let refusal = match format!(in rt.alloc(); "{folder}{name}") {
        Ok(path) => match how.open(rt, path.as_str()) {
            Ok(file) => return Ok(file),
            Err(error) => unopened(&error),
        },
        Err(_) => CounterRefusal::Memory,
    };
    Err(CounterFault::new(folder, pipe, refusal))
}

// Why a pipe isn't opened.
fn unopened(error: &io::Error) -> CounterRefusal {
    match error.kind() {
        ErrorKind::NotFound => CounterRefusal::Missing,
        ErrorKind::PermissionDenied => CounterRefusal::Denied,
        _ => CounterRefusal::Unopened,
    }
}

/// What a counter is told, open for reading alone: a read ends as nothing once no office has the
/// pipe.
pub(crate) fn listen<'a, R: Files<File = File> + AllocGlobal>(
    rt: &R,
    folder: &'a str,
) -> Result<File, CounterFault<'a>> {
    // so opened first, the second opening doesn't wait, should the office end meanwhile
    let _both_ends = find_pipe(rt, folder, CounterFile::Out)?;
    let mut how = OpenOptions::new();
    how.read(true);
    open_at(rt, folder, CounterFile::Out, &how)
}

// Notes a pipe that wasn't opened before.
fn note_pipe(number: FileNumber, opened: &mut Vec<FileNumber>) -> Result<(), CounterRefusal> {
    if opened.iter().any(|other| *other == number) {
        return Err(CounterRefusal::Taken);
    }
    opened.push(number).or(Err(CounterRefusal::Memory))
}
