//! The counters of a ledger: which station each has for good, by its name, and from which batch on
//! only offices posted.
//!
//! The references of a counter rise, and they are those of its station. So a counter keeps its
//! station, in whatever order counters are named: a [`Roster`] gives each name one. It is kept in a
//! file of text beside the ledger, which is written whole or not at all ([`write_roster`]).
//!
//! What a script posts has no counter, though it stands under a station. So the roster says too how
//! the ledger was left ([`LastUse`]), and from which batch on only offices posted
//! ([`Roster::settle`]): what stands before that one is no counter's.
#![tactic(auto)]

mod file;
mod lines;
mod name;
mod place;
mod refusal;
mod roster;

pub use file::{note_script, read_roster, remove_roster, take_along, write_roster};
pub use name::{LONGEST_NAME, is_name, name_of};
pub use place::{RosterPath, is_disk};
pub use refusal::{CountersFault, RosterFault};
pub use roster::{LastUse, MOST_COUNTERS, Roster};
