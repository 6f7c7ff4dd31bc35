//! What `derbyfig` is asked for.
use ledger_file::FormatOptions;
use ledger_folder::ArchiveOptions;
use ledger_inspection::Inspection;
use office_service::ServeOptions;
use std::fmt;
use std::num::NonZeroU64;

/// What the words of `derbyfig` ask for.
#[derive(Debug, Drop)]
pub enum Invocation<'a> {
    /// To run a script.
    Run(ScriptOptions<'a>),
    /// To keep an office open.
    Serve(ServeOptions<'a>),
    /// To look at a ledger, or at several that are read as one book.
    Inspect(Inspection<'a>),
    /// To make an empty ledger at this path.
    Format {
        path: &'a str,
        formatting: FormatOptions,
    },
    /// To close the office that has the counter with this folder.
    Close {
        counter: &'a str,
        /// How long the office may take, 0 to 86,400.
        seconds: u64,
    },
    /// To tell how the office stands that has the counter with this folder.
    Status {
        counter: &'a str,
    },
    /// To copy a ledger.
    Copy(CopyOptions<'a>),
    /// To add to an archive what it lacks of a ledger.
    Archive(ArchiveOptions<'a>),
}

/// A ledger that is to be copied.
#[derive(Clone, Copy, Debug)]
pub struct CopyOptions<'a> {
    /// The path of the ledger, or of the archive's folder, which is only read.
    pub old: &'a str,
    pub origin: Origin,
    /// The path that the copy gets.
    pub path: &'a str,
    pub formatting: FormatOptions,
}

/// What a ledger is copied from.
#[derive(Clone, Copy, Debug, PartialEq, Eq)]
pub enum Origin {
    /// A ledger of the present layout.
    Ledger,
    /// One of an older layout.
    Older,
    /// The archive in a folder, where the copy goes on.
    Archive,
}

impl Origin {
    /// Its name among the words of the command that copies from it.
    pub(crate) fn word(self) -> &'static str {
        match self {
            Origin::Ledger => "LEDGER",
            Origin::Older => "OLD",
            Origin::Archive => "FOLDER",
        }
    }
}

impl fmt::Display for Origin {
    fn fmt<W: fmt::Write>(&self, f: &mut fmt::Formatter<W>) -> fmt::Result {
        f.write_str(self.word())
    }
}

/// A script that is to be run.
#[derive(Clone, Copy, Debug)]
pub struct ScriptOptions<'a> {
    /// The file or the disk that is the device; without one it is in memory.
    pub file: Option<ScriptFile<'a>>,
    /// How many sectors the device has at least, if that is said: 1 to 4,000,039.
    pub sectors: Option<u64>,
}

/// A file or a disk that a script runs on.
#[derive(Clone, Copy, Debug)]
pub struct ScriptFile<'a> {
    pub path: &'a str,
    /// Whether it is a disk that is taken whatever it holds.
    pub overwrite: bool,
    /// The ledger that is copied onto it first.
    pub older: Option<OlderLedger<'a>>,
    /// Whether it is noted for the next office that a script may have posted.
    pub noted: bool,
}

/// A ledger of an older layout.
#[derive(Clone, Copy, Debug)]
pub struct OlderLedger<'a> {
    pub path: &'a str,
    /// How many slots each bank of its copy gets.
    pub slots: NonZeroU64,
}
