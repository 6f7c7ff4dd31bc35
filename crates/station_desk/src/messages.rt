//! What goes through the rings.
use turn_ledger::{Entry, EntryRefusal};

/// A request: an entry under its ticket.
#[derive(Clone, Copy, Debug, PartialEq, Eq)]
pub struct Ask {
    /// How many requests its feed submitted before it.
    pub ticket: u64,
    /// What the client asks.
    pub entry: Entry,
}

/// What became of a request.
#[derive(Clone, Copy, Debug, PartialEq, Eq)]
pub struct Answer {
    /// The ticket of the request.
    pub ticket: u64,
    /// The entry of the request.
    pub entry: Entry,
    /// What became of it.
    pub outcome: Outcome,
}

/// What became of an entry.
#[derive(Clone, Copy, Debug, PartialEq, Eq)]
pub enum Outcome {
    /// It was accepted, and is journaled under this sequence number.
    Posted(u64),
    /// A rule refused it, and it changed nothing.
    Refused(EntryRefusal),
    /// The device failed while it was being journaled: the next opening tells whether it stands.
    Undecided,
}

impl Ask {
    ghost use Rattle.std.specs.Prelude.{◌≡◌};
    ghost use Rattle.station_desk.specs.Messages.{answer_to};

    // The answer to it with this outcome.
    pub(crate) fn answered(&self, outcome: Outcome) -> Answer
        ensures { result ≡ answer_to self.now outcome }
    {
        Answer {
            ticket: self.ticket,
            entry: self.entry,
            outcome,
        }
    }
}
