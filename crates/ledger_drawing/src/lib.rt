//! A picture of a device's sectors: [`draw`] draws them, with a damaged one in red. The device is
//! only read.
//!
//! `checks/drawings.sh` looks at pictures of whole and of damaged devices.
#![tactic(auto)]

mod drawing;
mod kind;
mod map;
mod section;
mod style;

pub use drawing::draw;
pub use ledger_damage::Place;
pub use sector_device::{Device, DeviceFault};
pub use text_streams::{OutputFault, StreamFault};
