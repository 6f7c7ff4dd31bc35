//! Looks at a ledger on a device or in a file, of any layout, and prints what is asked for. It
//! never writes the file. What keeps it from that it answers as a fault, and leaves its telling to
//! the caller.
//!
//! [`inspect`] looks at a file, or at several as one book, and [`inspect_device`] at a device that
//! is handed in. [`check_archive`] finds an archive sound.
//!
//! `checks/inspections.sh` has examples.
#![tactic(auto)]

mod book_reader;
mod faults;
mod inspecting;
mod inspection;
mod meter;
mod reading_book;
mod shelf;
mod sound_ledger;
mod unsound_ledger;
mod wrong;

pub use device_files::{FileFault, LockMode};
pub use faults::InspectionFault;
pub use inspecting::{inspect, inspect_device};
pub use inspection::{Inspection, Task};
pub use ledger_damage::Place;
pub use ledger_folder::Part;
pub use ledger_printing::{Date, Format, JournalWish, Progress, Selection};
pub use ledger_reading::{Cause, Device, OpenRefusal};
pub use reading_book::check_archive;
pub use wrong::Wrong;
