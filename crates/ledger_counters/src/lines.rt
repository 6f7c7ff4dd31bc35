//! A roster as the text of its file: a line for its kind, one for the ledger, one for the batch
//! from which on only offices posted, one for how it was left, and one for each counter.
use crate::refusal::RosterFault;
use crate::roster::{LastUse, Roster};
use std::alloc::Global;
use std::fmt;

/// What the file begins with, and the number of its form.
const KIND: &str = "derbyfig counters 1";

/// How many lines stand before those of the counters.
const FIRST_LINES: u64 = 4;

impl fmt::Display for LastUse {
    fn fmt<W: fmt::Write>(&self, f: &mut fmt::Formatter<W>) -> fmt::Result {
        match self {
            LastUse::Open(number) => write!(f, "open {number}"),
            LastUse::Closed(number) => write!(f, "closed {number}"),
            LastUse::Script => f.write_str("script"),
        }
    }
}

/// The text of its file.
impl fmt::Display for Roster {
    fn fmt<W: fmt::Write>(&self, f: &mut fmt::Formatter<W>) -> fmt::Result {
        let (ledger, since, left) = (self.ledger(), self.since(), self.left());
        write!(f, "{KIND}\nledger {ledger}\nsince {since}\n{left}\n")?;
        for name in self.names() {
            write!(f, "counter {name}\n")?;
        }
        Ok(())
    }
}

impl Roster {
    /// The roster that a text is.
    ///
    /// # Errors
    /// `NoRoster`, or out of memory.
    pub fn parse(alloc: Global, text: &str) -> Result<Roster, RosterFault> {
        let mut lines = text.lines();
        if lines.next() != Some(KIND) {
            return Err(wrong(1));
        }
        let ledger = number_of(lines.next(), "ledger ").ok_or(wrong(2))?;
        let since = number_of(lines.next(), "since ").ok_or(wrong(3))?;
        let left = left_of(lines.next()).ok_or(wrong(4))?;
        let mut roster = Roster::new(alloc, ledger, since);
        roster.leave(left);
        let mut number = FIRST_LINES;
        for line in lines {
            number = number.saturating_add(1);
            add_counter(alloc, &mut roster, line, number)?;
        }
        Ok(roster)
    }
}

// Adds the counter of a line, which is another one than those before.
fn add_counter(
    alloc: Global,
    roster: &mut Roster,
    line: &str,
    number: u64,
) -> Result<(), RosterFault> {
    let name = line.strip_prefix("counter ").ok_or(wrong(number))?;
    if roster.station_of(name).is_some() {
        return Err(wrong(number));
    }
    match roster.seat(alloc, name) {
        Ok(_) => Ok(()),
        Err(RosterFault::Memory) => Err(RosterFault::Memory),
        Err(_) => Err(wrong(number)),
    }
}

// That this line is wrong.
fn wrong(line: u64) -> RosterFault {
    RosterFault::NoRoster { line }
}

// The number behind this word, if the line says one.
fn number_of(line: Option<&str>, word: &str) -> Option<u64> {
    line?.strip_prefix(word)?.parse::<u64>().ok()
}

// How a line says that the ledger was left.
fn left_of(line: Option<&str>) -> Option<LastUse> {
    if line? == "script" {
        return Some(LastUse::Script);
    }
    match number_of(line, "open ") {
        Some(number) => Some(LastUse::Open(number)),
        None => Some(LastUse::Closed(number_of(line, "closed ")?)),
    }
}
