//! Asking an office from outside how it stands.
use crate::counter_fault::{CounterFault, CounterFile, CounterRefusal};
use crate::pipes::listen;
use crate::speaking::Speaker;
use std::alloc::{AllocError, Global};
use std::fmt;
use std::fs::{File, Files};
use std::io::{ErrorKind, Read};
use std::time::{Clock, SystemTime, UNIX_EPOCH};
use text_grammar::{Cut, LineCutter};

/// What the answer begins with, which no other one does.
const NAME: &str = "office ";

/// How many bytes are read at most: more than an earlier client left.
const MOST: u64 = 100_000_000;

/// How an office stands, as its line tells it.
#[derive(Drop)]
pub struct StatusLine {
    line: String,
}

/// A fact a line, its name and its value, without the end of the last line.
impl fmt::Display for StatusLine {
    fn fmt<W: fmt::Write>(&self, f: &mut fmt::Formatter<W>) -> fmt::Result {
        let facts = self.line.strip_prefix(NAME).unwrap_or("");
        for (place, word) in facts.split_whitespace().enumerate() {
            match (place, place % 2) {
                (0, _) => f.write_str(word)?,
                (_, 0) => write!(f, "\n{word}")?,
                _ => write!(f, " {word}")?,
            }
        }
        Ok(())
    }
}

/// Asks the office that has a counter how it stands, and waits until that is told, or the office
/// has ended. The folder is the counter's. What stands in its pipes from before is answered, or
/// dropped, first.
///
/// # Errors
/// [`CounterFault`].
pub fn ask_status<'a, R: Files<File = File> + AllocGlobal + Clock>(
    rt: &R,
    folder: &'a str,
) -> Result<StatusLine, CounterFault<'a>> {
    let mut speaker = Speaker::at(rt, folder)?;
    let mut listener = Listener::at(rt, folder)?;
    let number = own_number(rt);
    let memory = CounterFault::new(folder, CounterFile::Folder, CounterRefusal::Memory);
    let Ok(hello) = format!(in rt.alloc(); "hello {number}") else {
        return Err(memory);
    };
    let Ok(said) = format!(in rt.alloc(); " ?\n{hello}\nstatus\n") else {
        return Err(memory);
    };
    speaker.say(said.as_bytes())?;
    listener.await_line(hello.as_bytes())?;
    listener.hear()?;
    match listener.told(rt.alloc()) {
        Ok(Some(told)) => Ok(told),
        Ok(None) => Err(CounterFault::new(folder, CounterFile::Folder, CounterRefusal::Untold)),
        Err(AllocError) => Err(memory),
    }
}

/// A number that hardly anybody else takes: the time.
pub(crate) fn own_number<R: Clock>(rt: &R) -> u64 {
    let Ok(now) = SystemTime::now(rt) else {
        return 0;
    };
    match now.duration_since(UNIX_EPOCH) {
        Ok(since) => u64::try_from(since.as_nanos()).unwrap_or(0),
        Err(_) => 0,
    }
}

// Who hears what an office tells a counter, line by line.
#[derive(Drop)]
struct Listener<'a> {
    folder: &'a str,
    pipe: File,
    cutter: LineCutter,
}

impl<'a> Listener<'a> {
    fn at<R: Files<File = File> + AllocGlobal>(
        rt: &R,
        folder: &'a str,
    ) -> Result<Listener<'a>, CounterFault<'a>> {
        let pipe = listen(rt, folder)?;
        let memory = CounterFault::new(folder, CounterFile::Folder, CounterRefusal::Memory);
        Ok(Listener {
            folder,
            pipe,
            cutter: LineCutter::new(rt.alloc()).or(Err(memory))?,
        })
    }

    // Hears all up to this line.
    fn await_line(&mut self, line: &[u8]) -> Result<(), CounterFault<'a>> {
        for _ in 0..MOST {
            self.hear()?;
            if self.cutter.line() == line {
                return Ok(());
            }
        }
        Err(CounterFault::new(self.folder, CounterFile::Folder, CounterRefusal::Untold))
    }

    // Hears the next line, which the cutter then lends.
    fn hear(&mut self) -> Result<(), CounterFault<'a>> {
        let mut byte = [0];
        for _ in 0..MOST {
            match self.pipe.read(&mut byte) {
                // no office is there any more
                Ok(0) => return Err(CounterFault::new(
                    self.folder,
                    CounterFile::Folder,
                    CounterRefusal::NotOpen,
                )),
                Ok(_) => {
                    if self.cutter.push(byte[0]) != Cut::Nothing {
                        return Ok(());
                    }
                }
                Err(error) if error.kind() == ErrorKind::Interrupted => {}
                Err(_) => break,
            }
        }
        Err(CounterFault::new(self.folder, CounterFile::Folder, CounterRefusal::Untold))
    }

    // How the office stands, if the line that was heard tells that.
    fn told(&self, alloc: Global) -> Result<Option<StatusLine>, AllocError> {
        let line = std::str::from_utf8(self.cutter.line()).unwrap_or("");
        if !line.starts_with(NAME) {
            return Ok(None);
        }
        let line = format!(in alloc; "{line}")?;
        Ok(Some(StatusLine { line }))
    }
}
