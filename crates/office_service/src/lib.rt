//! The engine of an office that is kept open: on a file or a disk, for counters by named pipes and
//! for the terminal.
//!
//! [`serve`] opens the pipes, the device and the archive, keeps the office open, and tells how it
//! ended. [`close_office`] asks it from outside to close, and [`ask_status`] how it stands.
#![tactic(auto)]

mod archivist;
mod closing;
mod counter_fault;
mod ending;
mod faults;
mod keeping;
mod locks;
mod looking_back;
mod pipes;
mod runtime;
mod seating;
mod serving;
mod source;
mod speaking;
mod status;

pub use closing::close_office;
pub use counter_fault::{CounterFault, CounterFile, CounterRefusal};
pub use faults::OfficeFault;
pub use keeping::{SPAN, Surroundings, serve, span_in_numbers};
pub use ledger_counters::{CountersFault, RosterFault, RosterPath};
pub use locks::{FileLocks, Locks};
pub use office_sessions::REQUESTS;
pub use runtime::Runtime;
pub use seating::TERMINAL;
pub use serving::{CounterFolder, OfficePlan, ServeOptions};
pub use source::{Source, Target};
pub use status::{StatusLine, ask_status};
