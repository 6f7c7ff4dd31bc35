//! What a clerk is asked, and what it answers.

use crate::{Turn, TurnRefusal};
use turn_ledger::Entry;

/// A station that wants its turn, with these entries.
#[derive(Debug, Drop)]
pub struct Event {
    /// The station's number; the bottom station has number 0.
    pub station: u8,
    /// What its clients ask, in order.
    pub entries: Vec<Entry>,
}

/// The turn, or why it was not taken.
pub type Reply = Result<Turn, TurnRefusal>;
