//! What both programs do with the system's words and streams.
ghost use Rattle.std.specs.Prelude.{◌≡◌, ◌≤◌, ◌⊎◌, IsErr, IfOk, IfErr};
ghost use Rattle.clap.specs.Values.{kind_of};
ghost use Rattle.clap.specs.declared.error.kind.ErrorKind.TheVariants.{InvalidValue, OutOfMemory};

use crate::commands::derbyfig_command;
use crate::console_program::run_program;
use crate::console_words::console_command;
use crate::derbyfig::run_derbyfig;
use crate::telling::{OUT_OF_MEMORY, fail};
use crate::{console_program, derbyfig};
use clap::error::ErrorKind;
use clap::{Command, Error};
use office_service::{Locks, Runtime, Surroundings};
use std::alloc::{AllocError, Global};
use std::env::Env;
use std::fs::{File, Files};
use std::io::{Read, Write};
use std::sync::Wait;
use std::thread::Threads;
use std::{env, io};

/// The words of the command line, of which the first is the program's name.
///
/// # Errors
/// One isn't UTF-8, or there is no memory.
pub fn words_given<R: Env + AllocGlobal>(rt: &R) -> io::Result<Vec<String>> {
    let words = env::args(rt)?.collect(rt.alloc())?;
    Ok(words)
}

/// Runs `turn_console` on the words that the system gave, if it did.
pub fn run_console<
    F: Files<File = File> + AllocGlobal + Threads + Wait + Sync,
    R: Read,
    W: Write,
    E: Write,
>(rt: &F, given: io::Result<Vec<String>>, reader: &mut R, writer: &mut W, errors: &mut E) -> u8
    ensures status { result ≤ 2 }
    ensures wordless { IsErr given → (result ≡ 1) ⊎ (result ≡ 2) }
{
    match given {
        Ok(words) => match as_texts(rt.alloc(), &words) {
            Ok(texts) => run_program(rt, texts.as_slice(), reader, writer, errors),
            Err(_) => fail(rt.alloc(), OUT_OF_MEMORY, errors).console_code(),
        },
        Err(fault) => {
            let (Ok(error) | Err(error)) = wordless(&fault, console_command(rt.alloc()));
            console_program::tell_error(rt.alloc(), error, writer, errors)
        }
    }
}

/// Runs `derbyfig` on the words that the system gave, if it did.
pub fn run_derbyfig_words<
    R: Runtime,
    I: Read + Send + Drop + 'static,
    O: Write + Send + Drop + 'static,
    L: Locks + Copy + Send + 'static,
    W: Write,
    E: Write,
>(
    rt: &R,
    given: io::Result<Vec<String>>,
    surroundings: Surroundings<I, O, L>,
    writer: &mut W,
    errors: &mut E,
    shows_progress: bool,
) -> u8
    ensures status { result ≤ 3 }
    ensures wordless { IsErr given → (result ≡ 2) ⊎ (result ≡ 3) }
{
    match given {
        Ok(words) => match as_texts(rt.alloc(), &words) {
            Ok(texts) => {
                let texts = texts.as_slice();
                run_derbyfig(rt, texts, surroundings, writer, errors, shows_progress)
            }
            Err(_) => fail(rt.alloc(), OUT_OF_MEMORY, errors).code(),
        },
        Err(fault) => {
            let (Ok(error) | Err(error)) = wordless(&fault, derbyfig_command(rt.alloc()));
            derbyfig::tell_error(rt.alloc(), error, writer, errors).code()
        }
    }
}

fn as_texts<'a>(alloc: Global, words: &'a [String]) -> Result<Vec<&'a str>, AllocError> {
    words.iter().map(|word| word.as_str()).collect(alloc)
}

// What `clap` would answer to words that aren't there: one isn't UTF-8, or there is no memory.
fn wordless(fault: &io::Error, command: Result<Command<'_>, Error>) -> Result<Error, Error>
    requires memory { IfErr command (λ error. kind_of error ≡ OutOfMemory) }
    ensures made { IfOk result (λ error. kind_of error ≡ InvalidValue) }
    ensures memory { IfErr result (λ error. kind_of error ≡ OutOfMemory) }
{
    if fault.kind() == io::ErrorKind::OutOfMemory {
        return Err(Error::from(AllocError));
    }
    let mut command = command?;
    let error = command.error(
        ErrorKind::InvalidValue,
        "invalid UTF-8 was detected in one or more arguments",
    )?;
    Ok(error)
}
