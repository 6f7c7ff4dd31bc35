//! Why a counter can't be had, from inside or outside of its office.
use std::fmt;
use thiserror::Error;

/// Why a counter's folder, or what is in it, can't be used.
#[derive(Clone, Copy, Debug, PartialEq, Eq, Error)]
pub enum CounterRefusal {
    /// There is no memory for its path.
    #[error("out of memory")]
    Memory,
    /// It isn't there.
    #[error("it isn't there; mkfifo makes it")]
    Missing,
    /// There is no right to open it.
    #[error("there is no right to open it")]
    Denied,
    /// It can't be opened.
    #[error("it can't be opened")]
    Unopened,
    /// What is there is no pipe.
    #[error("it is no pipe")]
    NoPipe,
    /// It is a pipe that was opened before.
    #[error("it is another counter's")]
    Taken,
    /// Another office has it.
    #[error("another office has it")]
    InUse,
    /// It can't be locked.
    #[error("it can't be locked")]
    Unlocked,
    /// It can't be written.
    #[error("it can't be written")]
    Unwritten,
    /// The folder's lock can't be had.
    #[error("it can't be opened or locked")]
    NoLock,
    /// A client speaks there.
    #[error("another client has it")]
    HasClient,
    /// No office has the counter.
    #[error("not open")]
    NotOpen,
    /// Its office was asked to close, and goes on.
    #[error("its office is still open")]
    StillOpen,
    /// Its office was asked how it stands, and closes.
    #[error("its office doesn't tell")]
    Untold,
}

/// What of a counter it is.
#[derive(Clone, Copy, Debug, PartialEq, Eq)]
pub enum CounterFile {
    Folder,
    /// The pipe of what the counter says.
    In,
    /// That of what it is told.
    Out,
    Lock,
}

impl CounterFile {
    /// Its path behind that of the folder.
    pub(crate) fn name(self) -> &'static str {
        match self {
            CounterFile::Folder => "",
            CounterFile::In => "/in",
            CounterFile::Out => "/out",
            CounterFile::Lock => "/lock",
        }
    }
}

/// A counter that can't be had.
#[derive(Clone, Copy, Debug)]
pub struct CounterFault<'a> {
    /// The counter's folder.
    pub folder: &'a str,
    pub file: CounterFile,
    pub refusal: CounterRefusal,
}

impl<'a> CounterFault<'a> {
    pub(crate) fn new(folder: &'a str, file: CounterFile, refusal: CounterRefusal) -> Self {
        CounterFault {
            folder,
            file,
            refusal,
        }
    }
}

/// The path, unless memory is what there is none of, and the cause.
impl fmt::Display for CounterFault<'_> {
    fn fmt<W: fmt::Write>(&self, f: &mut fmt::Formatter<W>) -> fmt::Result {
        if self.refusal == CounterRefusal::Memory {
            return write!(f, "{}", self.refusal);
        }
        write!(f, "{}{}: {}", self.folder, self.file.name(), self.refusal)
    }
}
