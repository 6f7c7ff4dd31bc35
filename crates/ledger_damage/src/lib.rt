//! The byte for which an opening refused a device.
//!
//! [`locate`] looks a second time at a device of layout 1, 2 or 3 and finds the sector and the
//! byte. Whoever draws a device that may be damaged asks [`find_plan`], [`find_live_bank`] and
//! [`read_gate`], of which what isn't there is no fault. The device is only read.
//!
//! The test `damaged_heads_are_found` in `src/damages.rt` of the crate `test_examples` is an
//! example.
#![tactic(auto)]

mod banks;
mod damage;
mod place;
mod sectors;
mod slots;

pub use damage::locate;
pub use gate_journal::{LiveBank, Plan};
pub use journal_recovery::{Cause, OpenRefusal};
pub use place::Place;
pub use sector_device::{Device, DeviceFault};
pub use sectors::{find_live_bank, find_plan, read_gate};
