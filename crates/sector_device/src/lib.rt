//! A row of 512-byte sectors that can be read, written and synced, and what a crash may leave of
//! it.
//!
//! The trait `Device` says what is promised: which bytes a read gives, which images a crash now may
//! leave, and which a crash at some earlier moment might have left, before, within or after each
//! call. `MemoryDevice` keeps all of it, loses power on demand, and is what the crates above are
//! tested on.
//!
//! The test `a_power_loss_takes_the_last_pick_for_each_pending_sector` in `src/devices.rt` of the
//! crate `test_examples` is an example.
#![tactic(auto)]

mod device;
mod memory;

pub use device::{Device, DeviceFault, SECTOR, Sector, sector_in_numbers};
pub use memory::{MemoryDevice, Picks};
