//! A console for tests: a line asks for one public call of the library, and what the call answers
//! is printed. Here are the words that need a clerk, an office, a desk or an archive in memory. All
//! others are in `test_words`.
//!
//! But for the words in an office no word has a type parameter, so that it is proved once, as it is
//! compiled. A [`Console`] has a device, or what stands on it, in hand. A word that isn't one of
//! that is told, and changes nothing. What a call requires is asked first.
#![tactic(auto)]

mod archives;
mod callers;
mod clerks;
mod closings;
mod console;
mod days;
mod desks;
mod offices;
mod spans;
mod stations;
mod turns;

use console::Console;
use std::alloc::{AllocError, Global};
use std::io::{BufRead, BufReader, Read, Write};
use std::process::ExitCode;
use std::sync::Wait;
use std::thread::Threads;
use text_streams::{StreamFault, write_all};

// How much is told at most before it is written.
const FULL: usize = 65_536;

// How long a line may be.
const LONGEST: usize = 65_536;

// Puts the next line in the place of the last one; false if there is none.
fn read_line<I: BufRead>(input: &mut I, line: &mut String) -> Result<bool, StreamFault> {
    line.clear();
    match input.read_line(line) {
        Ok(count) => Ok(count > 0),
        Err(_) => Err(StreamFault::Read),
    }
}

// Writes what was told.
fn hand_over<W: Write>(console: &mut Console, output: &mut W) -> Result<(), StreamFault> {
    write_all(output, console.told().as_bytes())?;
    console.forget_told();
    Ok(())
}

// Does what each line asks for, and writes what it is told if a line asks for that, or it has
// become much.
fn converse<R: Threads + Wait + Sync, I: BufRead, W: Write>(
    rt: &R,
    console: &mut Console,
    line: &mut String,
    input: &mut I,
    output: &mut W,
) -> Result<(), StreamFault> {
    for _ in 0..u64::MAX {
        if !read_line(input, line)? {
            break;
        }
        if console.run(rt, line.as_str()) || console.told().len() >= FULL {
            hand_over(console, output)?;
        }
    }
    hand_over(console, output)
}

// A console, and a line with room for the longest: behind its start it takes no memory but for a
// call.
fn begun(alloc: Global) -> Result<(Console, String), AllocError> {
    let line = String::with_capacity(alloc, LONGEST)?;
    Ok((Console::new(alloc)?, line))
}

// Converses with a console that is made for it.
fn begin<R: Threads + Wait + Sync, I: BufRead, W: Write>(
    rt: &R,
    alloc: Global,
    input: &mut I,
    output: &mut W,
) -> Result<(), StreamFault> {
    let (mut console, mut line) = begun(alloc)?;
    converse(rt, &mut console, &mut line, input, output)
}

fn run<R: Threads + Wait + Sync, I: Read + Drop, W: Write>(
    rt: &R,
    alloc: Global,
    input: I,
    output: &mut W,
) -> Result<(), StreamFault> {
    match BufReader::new(alloc, input) {
        Ok(mut input) => begin(rt, alloc, &mut input, output),
        Err(_) => Err(StreamFault::Memory),
    }
}

fn main(rt: HostRuntime) -> ExitCode {
    match run(&rt, rt.alloc(), rt.stdin(), &mut rt.stdout()) {
        Ok(()) => ExitCode::SUCCESS,
        Err(_) => ExitCode::FAILURE,
    }
}
