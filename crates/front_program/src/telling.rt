//! What a program tells on standard error.
ghost use Rattle.std.specs.Prelude.{◌≡◌, ◌≢◌, ◌⊎◌, true, false, Ok, IfOk, IsOk};
ghost use Rattle.clap.specs.Values.{kind_of};
ghost use Rattle.clap.specs.declared.error.kind.ErrorKind.TheVariants.{DisplayHelp, DisplayVersion};
ghost use Rattle.clap.specs.declared.error.kind.ErrorKind.TheVariants.{OutOfMemory};

use crate::status::Status;
use clap::Error;
use clap::error::ErrorKind;
use std::alloc::Global;
use std::fmt;
use std::io::Write;
use text_streams::{WriteFault, write_all};

/// What is told if there is no memory.
pub(crate) const OUT_OF_MEMORY: &str = "out of memory";

/// Tells something on a line of its own. A fault of `errors` is ignored.
pub(crate) fn tell<L: fmt::Display + Drop, E: Write>(alloc: Global, line: L, errors: &mut E) {
    let _ = match format!(in alloc; "{line}\n") {
        Ok(text) => write_all(errors, text.as_bytes()),
        Err(_) => write_all(errors, b"out of memory\n"),
    };
}

/// Tells a failure.
pub(crate) fn fail<L: fmt::Display + Drop, E: Write>(
    alloc: Global,
    line: L,
    errors: &mut E,
) -> Status
    ensures { result ≡ Status.Failed }
{
    tell(alloc, line, errors);
    Status::Failed
}

/// Tells that the words of the command line don't go together. Without memory for that it failed.
pub(crate) fn tell_wrong<L: fmt::Display + Drop, E: Write>(
    alloc: Global,
    line: L,
    errors: &mut E,
) -> Status
    ensures { (result ≡ Status.WrongWords) ⊎ (result ≡ Status.Failed) }
{
    let Ok(text) = format!(in alloc; "{line}\n") else {
        return fail(alloc, OUT_OF_MEMORY, errors);
    };
    let _ = write_all(errors, text.as_bytes());
    Status::WrongWords
}

/// Writes what `clap` answers to wrong words, or to the wish for help.
///
/// # Errors
/// The output that was asked for can't be written.
pub(crate) fn tell_words<W: Write, E: Write>(
    alloc: Global,
    error: Error,
    writer: &mut W,
    errors: &mut E,
) -> Result<Status, WriteFault>
    ensures wrong { kind_of error ≢ DisplayHelp → kind_of error ≢ DisplayVersion
        → IfOk result (λ status. (status ≡ Status.WrongWords) ⊎ (status ≡ Status.Failed)) }
    ensures written { kind_of error ≢ DisplayHelp → kind_of error ≢ DisplayVersion → IsOk result }
    ensures memory { kind_of error ≡ OutOfMemory → result ≡ Ok Status.Failed }
    ensures no_rule { IfOk result (λ status. status ≢ Status.Refused) }
{
    if error.kind() == ErrorKind::OutOfMemory {
        return Ok(fail(alloc, OUT_OF_MEMORY, errors));
    }
    let Ok(text) = error.to_string(alloc) else {
        return Ok(fail(alloc, OUT_OF_MEMORY, errors));
    };
    if error.use_stderr() {
        let _ = write_all(errors, text.as_bytes());
        return Ok(Status::WrongWords);
    }
    write_all(writer, text.as_bytes())?;
    Ok(Status::Done)
}

/// How a program ends that couldn't write its output to the end: well if the output's reader went
/// away, since it has what it wanted; else it tells that, and failed.
pub(crate) fn unwritten<E: Write>(alloc: Global, is_closed: bool, errors: &mut E) -> Status
    ensures closed { is_closed ≡ true → result ≡ Status.Done }
    ensures failed { is_closed ≡ false → result ≡ Status.Failed }
{
    if is_closed {
        Status::Done
    } else {
        fail(alloc, WriteFault, errors)
    }
}
