//! All of `turn_console`, over the words and streams that it is handed.
ghost use Rattle.std.specs.Prelude.{◌≡◌, ◌≢◌, ◌⊎◌, ◌≤◌, None, IfSome};
ghost use Rattle.std.specs.Str.Lines.{lines};
ghost use Rattle.front_scripts.specs.Lines.{first_fault};
ghost use Rattle.clap.specs.Values.{kind_of};
ghost use Rattle.clap.specs.declared.error.kind.ErrorKind.TheVariants.{DisplayHelp, DisplayVersion};

use crate::console_faults::ToldByConsole;
use crate::console_words::options;
use crate::running::run_on_device;
use crate::status::Status;
use crate::telling::{fail, tell_words, tell_wrong};
use clap::Error;
use std::alloc::Global;
use std::fs::{File, Files};
use std::io::{Read, Write};
use std::sync::Wait;
use std::thread::Threads;

/// Runs the program and gives its status: 0 if the script ran to its end, or help was asked for, 1
/// after a fault, 2 after wrong words. The first of the words is the program's name. A file that is
/// the device is opened, made and grown before the script is read; a part of a ledger, or one of
/// another version, isn't grown. Answers go to the writer, what is told of faults and wrong words
/// to `errors`, of which a fault is ignored. It may wait if the script has a day.
pub fn run_program<
    F: Files<File = File> + AllocGlobal + Threads + Wait + Sync,
    R: Read,
    W: Write,
    E: Write,
>(rt: &F, words: &[&str], reader: &mut R, writer: &mut W, errors: &mut E) -> u8
    ensures status { result ≤ 2 }
    // of a reader whose bytes are known: no line of the script is wrong, or nothing was read, as
    // where help was asked for
    ensures sound { result ≡ 0 → (reader.new ≡ reader.old)
        ⊎ IfSome (R.remaining reader.old) (λ bytes. first_fault 1 (lines bytes) ≡ None) }
{
    let options = match options(rt.alloc(), words) {
        Ok(options) => options,
        Err(error) => return tell_error(rt.alloc(), error, writer, errors),
    };
    let running = match options.plan() {
        Ok(running) => running,
        Err(wrong) => return tell_wrong(rt.alloc(), wrong, errors).console_code(),
    };
    match run_on_device(rt, running, reader, writer) {
        Ok(()) => Status::Done.console_code(),
        Err(fault) => fail(rt.alloc(), ToldByConsole(fault), errors).console_code(),
    }
}

/// Writes what `clap` answers to wrong words, or to the wish for help, and gives the status.
pub(crate) fn tell_error<W: Write, E: Write>(
    alloc: Global,
    error: Error,
    writer: &mut W,
    errors: &mut E,
) -> u8
    ensures status { result ≤ 2 }
    ensures wrong { kind_of error ≢ DisplayHelp → kind_of error ≢ DisplayVersion
        → (result ≡ 1) ⊎ (result ≡ 2) }
{
    match tell_words(alloc, error, writer, errors) {
        Ok(status) => status.console_code(),
        Err(unwritten) => fail(alloc, unwritten, errors).console_code(),
    }
}
