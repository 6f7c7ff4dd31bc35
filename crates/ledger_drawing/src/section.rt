//! The parts of the drawing.
ghost use Rattle.std.specs.Prelude.{◌≤◌};

use std::fmt;

/// How many cells a row has.
pub(crate) const COLUMNS: u64 = 64;

/// A part of the drawing, which begins with a row of its own.
#[derive(Clone, Copy, Debug)]
pub(crate) struct Section {
    pub heading: Heading,
    /// Its first sector.
    pub first: u64,
    /// The sector behind its last one.
    pub end: u64,
    /// How many neighbours one cell stands for. The last cell may stand for fewer.
    pub joined: u64,
}

/// What a part is called.
#[derive(Clone, Copy, Debug)]
pub(crate) enum Heading {
    Superblock,
    /// The gate, the head and the snapshot of a bank.
    Bank { number: u8, is_live: bool },
    /// The slots of a bank.
    Slots { number: u8, is_live: bool },
    /// The slots of layout 1.
    Row,
    Unused,
    Unknown,
}

impl Section {
    /// A part without sectors, which isn't drawn.
    pub(crate) const EMPTY: Section = Section {
        heading: Heading::Unused,
        first: 0,
        end: 0,
        joined: 1,
    };

    /// The part from one sector to before another, so many in a cell.
    pub(crate) fn of(heading: Heading, first: u64, end: u64, joined: u64) -> Section {
        Section {
            heading,
            first,
            end,
            joined,
        }
    }

    /// How many rows it has.
    pub(crate) fn rows(&self) -> u64
        ensures { result ≤ 288230376151711744 }
    {
        let sectors = self.end.saturating_sub(self.first);
        sectors.div_ceil(self.joined.max(1)).div_ceil(COLUMNS)
    }

    /// The first sector of a cell, and the one behind its last, if there is such a cell.
    pub(crate) fn cell(&self, row: u64, column: u64) -> Option<(u64, u64)> {
        let cells = row.saturating_mul(COLUMNS).saturating_add(column);
        let from = self.first.saturating_add(cells.saturating_mul(self.joined));
        if from >= self.end {
            return None;
        }
        Some((from, self.end.min(from.saturating_add(self.joined))))
    }
}

impl Heading {
    /// Whether it is of the live bank.
    pub(crate) fn is_live(self) -> bool {
        match self {
            Heading::Bank { is_live, .. } | Heading::Slots { is_live, .. } => is_live,
            Heading::Superblock | Heading::Row | Heading::Unused | Heading::Unknown => false,
        }
    }
}

impl fmt::Display for Heading {
    fn fmt<W: fmt::Write>(&self, f: &mut fmt::Formatter<W>) -> fmt::Result {
        match *self {
            Heading::Superblock => f.write_str("superblock"),
            Heading::Bank { number, is_live } => {
                let state = live_or_not(is_live);
                write!(f, "bank {number}, {state}")
            }
            Heading::Slots { number, is_live } => {
                let state = live_or_not(is_live);
                write!(f, "slots of bank {number}, {state}")
            }
            Heading::Row => f.write_str("slots"),
            Heading::Unused => f.write_str("behind the ledger"),
            Heading::Unknown => f.write_str("no known layout"),
        }
    }
}

fn live_or_not(is_live: bool) -> &'static str {
    if is_live { "live" } else { "not live" }
}
