//! A day of an office: each of its stations works through what its clients handed in, in a thread
//! of its own, until so many turns are taken; then the office is closed, and every request is
//! accounted for.
//!
//! The test `a_day_accounts_for_each_request` in `src/days.rt` of the crate `test_examples` is an
//! example.
#![tactic(auto)]

mod day;
mod handing_in;
mod held_entries;
mod memory_archive;
mod office_run;
mod recess;
mod reconciled;
mod refusals;
mod seated;
mod spans;

pub use day::{Day, run_day};
pub use held_entries::{HELD_LIMIT, HeldEntries};
pub use line_lock::{
    Audit, Clerk, CloseRefusal, Closing, Device, Line, OfficeRefusal, OpenRefusal,
};
pub use memory_archive::MemoryArchive;
pub use office_run::{OfficeRun, run_office};
pub use recess::Recess;
pub use reconciled::{StationDay, all_reconciled};
pub use refusals::DayRefusal;
pub use seated::StationRemains;
pub use spans::{Life, OfficeParts, run_spans};
pub use station_desk::{
    Answer, Ask, Desk, End, EndName, Entry, EntryRefusal, Errand, Feed, Gate, Outcome, TurnRefusal,
};
