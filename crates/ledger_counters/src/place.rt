//! Where the counters of a ledger are kept.
use std::fs::{File, Files};
use std::os::unix::fs::FileTypeExt;
use std::{fmt, fs};

/// Where the counters of a ledger are kept.
#[derive(Clone, Copy, Debug, PartialEq, Eq)]
pub enum RosterPath<'a> {
    /// In a file beside the ledger of this path, whose name is the ledger's with `.counters` behind
    /// it.
    Beside(&'a str),
    /// In the file `counters` of this folder, which is an archive's.
    Inside(&'a str),
    /// In the file of this path, as for a disk, beside which there is none.
    At(&'a str),
}

/// The path of the file.
impl fmt::Display for RosterPath<'_> {
    fn fmt<W: fmt::Write>(&self, f: &mut fmt::Formatter<W>) -> fmt::Result {
        match self {
            RosterPath::Beside(ledger) => write!(f, "{ledger}.counters"),
            RosterPath::Inside(folder) => write!(f, "{folder}/counters"),
            RosterPath::At(path) => f.write_str(path),
        }
    }
}

/// Whether there is a disk at the path, beside which no file can be.
pub fn is_disk<R: Files<File = File>>(rt: &R, path: &str) -> bool {
    fs::metadata(rt, path).is_ok_and(|found| found.file_type().is_block_device())
}
