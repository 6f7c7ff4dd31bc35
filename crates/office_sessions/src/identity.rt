//! By what a counter is known.
use std::alloc::Global;
use std::fmt;

/// By what a counter is known: its name in its office, and the number of its office's ledger. Two
/// offices may have counters of one name.
#[derive(Debug, Drop)]
pub struct Identity {
    pub name: String,
    /// The number by which the ledger is told from others.
    pub ledger: u64,
}

impl Identity {
    /// That of a counter which isn't told from others.
    pub fn nobody(alloc: Global) -> Identity {
        Identity {
            name: String::new(alloc),
            ledger: 0,
        }
    }
}

/// The name, and behind it the ledger's number.
impl fmt::Display for Identity {
    fn fmt<W: fmt::Write>(&self, f: &mut fmt::Formatter<W>) -> fmt::Result {
        write!(f, "{} {}", self.name, self.ledger)
    }
}
