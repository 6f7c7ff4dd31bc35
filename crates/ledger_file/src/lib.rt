//! Files that hold ledgers: how they are opened, grown and formatted so that no part of a ledger,
//! and nothing of another program, is written over by mistake.
//!
//! A file is opened and locked first, and looked at. What becomes of it is decided by its first
//! sector, its length and what was asked for ([`sectors_planned`], [`check_formatting`]), before
//! anything of it changes. No contract speaks of what a real file holds.
//!
//! `checks/files.sh` has examples.
#![tactic(auto)]

mod copying;
mod opening;
mod plan;
mod refusal;

pub use copying::{CopyPlace, Original, open_for_copy};
pub use device_files::{Creation, FileDevice, FileFault};
pub use gate_journal::FormatRefusal;
pub use journal_recovery::OpenRefusal;
pub use opening::{FormatOptions, MOST_SECTORS, format_ledger, open_for_script, open_ledger};
pub use plan::{check_formatting, sectors_planned};
pub use refusal::LedgerRefusal;
