//! Prints the journal and the balances of a sound ledger: as a table, CSV, JSON Lines or for
//! `hledger`.
//!
//! [`print_journal`] prints the records one after another, and [`print_balances`] what the accounts
//! hold, each in one of the [`Format`]s. A [`JournalPrint`] prints the records of several listings
//! as one journal. The memory that they take doesn't grow with the number of records.
//!
//! `checks/inspections.sh` has examples.
#![tactic(auto)]

mod any_printer;
mod balances;
mod csv_rows;
mod date;
mod format;
mod hledger;
mod journal;
mod json_lines;
mod kind;
mod parts;
mod printer;
mod progress;
mod selection;
mod table;

pub use balances::print_balances;
pub use date::{BadDate, Date};
pub use format::Format;
pub use journal::{JournalPrint, JournalWish, print_journal};
pub use ledger_reading::{Batch, Device, Entry, Ledger, ListedRecord, ReadRefusal, Sound};
pub use progress::Progress;
pub use selection::Selection;
pub use text_streams::{OutputFault, StreamFault};
