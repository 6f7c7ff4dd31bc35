//! Devices that fail on demand or note their calls, under the laws of devices, for tests of what
//! stands above them.
//!
//! The test `a_fuse_fails_from_its_call_on` in `src/faults.rt` of the crate `test_examples` is an
//! example.
#![tactic(auto)]

mod call;
mod failing;
mod held;
mod noting;
mod op;

pub use call::Call;
pub use failing::{Failing, FaultRule, ForGood, Fuse, Once, OneFault};
pub use held::{HELD_LOOKS, Held, HeldFlags, Leave, held_looks_in_numbers};
pub use noting::Noting;
pub use op::Op;
pub use sector_device::{Device, DeviceFault, Sector};
