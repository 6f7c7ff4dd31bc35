//! What a ledger of any layout holds, to be looked at: its numbers, its balances, and its records
//! one after another. And archives of a ledger, which are read as one book with it.
//!
//! [`look`] recovers a ledger of layout 1, 2 or 3, and [`AnyJournal::list`] lists its records. Both
//! only read.
//!
//! An archive is journals in the present layout, each made whole by [`add`], with the records that
//! a listing has from where it stands on. Each begins where the one before ends, with what the
//! ledger then held. Read in order they are one book, and a [`Seam`] leads from one to the next.
//!
//! The test `records_are_listed_with_the_balances_after_them` in `src/listings.rt` of the crate
//! `test_examples` is an example.
#![tactic(auto)]

mod adding;
mod any_journal;
mod comparing;
mod following;
mod laws;
mod listing;
mod numbers;
mod refusals;
mod seam;
mod sound;

pub use adding::add;
pub use any_journal::AnyJournal;
pub use comparing::compare;
pub use following::{follow, skip_to};
pub use gate_journal::{Journal, OldJournal, ReadRefusal};
pub use journal_recovery::{Cause, OpenRefusal};
pub use laws::listed_is_in_sight;
pub use listing::{ListedRecord, Listing};
pub use numbers::Numbers;
pub use refusals::{AddRefusal, FollowRefusal};
pub use seam::Seam;
pub use sector_device::Device;
pub use sound::{Sound, look};
pub use turn_ledger::{Batch, Entry, Ledger};
