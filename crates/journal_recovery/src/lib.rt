//! What a device holds, as a ledger: the journal is opened, and its records are posted in order to
//! the balances of its snapshot.
//!
//! The test `an_acknowledged_deposit_outlives_a_power_loss` in `src/recovery.rt` of the crate
//! `test_examples` is an example.
#![tactic(auto)]

mod copying;
mod earlier;
mod entries;
mod laws;
mod looking_back;
mod migration;
mod old;
mod old_replay;
mod places;
mod postings;
mod recovery;
mod refusals;
mod replay;
mod sight;

pub use copying::copy;
pub use earlier::find_earlier;
pub use gate_journal::{EarlierBank, Journal, JournalCause, JournalRefusal, Record};
pub use laws::{one_old_recovery, one_recovery, seals_are_recovered};
pub use looking_back::{LOOK_BACK_STEP, LookBack, look_back};
pub use migration::{MigrateRefusal, migrate, snapshot_of};
pub use old::{Old, read_old, restore_older};
pub use places::{post_batch, read_entry};
pub use postings::may_hold_postings;
pub use recovery::{Recovered, recover};
pub use refusals::{Cause, OpenName, OpenRefusal};
pub use sector_device::{Device, DeviceFault};
pub use sight::{first_in_sight, read_in_sight};
pub use turn_ledger::Ledger;
