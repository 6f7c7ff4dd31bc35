//! One office for several counters: a clerk behind one lock, and a seat for each station of the
//! line.
//!
//! The test `turns_are_listed_and_refusals_noted` in `src/offices.rt` of the crate `test_examples`
//! is an example.
#![tactic(auto)]

mod closing;
mod lent;
mod locked;
mod office;
mod opened_on;
mod refusals;
mod seat;
mod shown;
mod told;

pub use closing::{CloseRefusal, Closing};
pub use four_state::{Line, Rule};
pub use lent::{OfficeRefusal, OfficeWork, with_office};
pub use office::Office;
pub use opened_on::OpenedOn;
pub use refusals::{BalanceRefusal, WithinRefusal};
pub use seat::Seat;
pub use sector_device::Device;
pub use std::sync::ledger::{Blank, Ledger as Count};
pub use sweep_auditor::Audit;
pub use told::{Room, ToldBalance};
pub use turn_clerk::{
    Clerk, FindRefusal, OpenRefusal, Posting, Reached, SEARCH_STEP, SearchStep, SearchTarget,
    Taken, Turn, TurnRefusal, later_posting,
};
pub use turn_ledger::{BATCH_LIMIT, Entry};
