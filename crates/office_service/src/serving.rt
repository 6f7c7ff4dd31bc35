//! What is asked of an office.
use ledger_file::FormatOptions;
use std::num::NonZeroU64;

/// A counter, and where its client speaks.
#[derive(Clone, Copy, Debug, PartialEq, Eq)]
pub struct CounterFolder<'a> {
    /// Its name, by which it keeps its station.
    pub name: &'a str,
    /// The folder with its two pipes.
    pub folder: &'a str,
}

/// An office that is asked for.
#[derive(Debug, Drop)]
pub struct ServeOptions<'a> {
    /// The path of the file or the disk that has the ledger.
    pub path: &'a str,
    /// How many sectors the device has at least, if that is said: 1 to 4,000,039.
    pub sectors: Option<u64>,
    /// The counters, whose names differ.
    pub counters: Vec<CounterFolder<'a>>,
    /// The file that keeps which station each counter has, unless that is the one beside the
    /// ledger.
    pub counters_file: Option<&'a str>,
    /// Whether that file is written anew: what was posted before is no counter's then.
    pub counters_anew: bool,
    /// Whether a counter's requests are dropped until it says `hello`.
    pub hello: bool,
    /// Whether the terminal is a counter too, behind the others.
    pub terminal: bool,
    /// How many stations there are, if that is said.
    pub stations: Option<u64>,
    /// How many slots each bank gets where the device is formatted first: at most 1,000,000.
    pub format: Option<NonZeroU64>,
    /// Whether what is formatted may hold anything.
    pub overwrite: bool,
    /// The folder of the archive, if the office keeps one.
    pub archive: Option<&'a str>,
    /// The folder of the copies, if counters may have some made.
    pub copies: Option<&'a str>,
}

/// What is worked out of what is asked for.
#[derive(Clone, Copy, Debug)]
pub struct OfficePlan {
    /// How many stations the office has.
    pub stations: u64,
    /// How the ledger is made first, if that is asked for.
    pub formatting: Option<FormatOptions>,
}
