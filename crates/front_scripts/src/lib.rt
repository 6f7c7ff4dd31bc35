//! The engine of scripts: it runs a script of commands over a clerk on a device, and prints what
//! they answer.
//!
//! [`run_script`] runs a script on a device that is handed in.
//!
//! The test `a_deposit_survives_a_power_loss` in `src/scripts.rt` of the crate `test_examples` is
//! an example.
#![tactic(auto)]

mod console;
mod engine;
mod faults;
mod power;
mod printing;
mod refusals;
mod script_day;
mod scripted_clerk;

pub use engine::run_script;
pub use faults::ScriptFault;
pub use four_state::LineRefusal;
pub use gate_journal::FormatRefusal;
pub use office_day::{CloseRefusal, End, EndName, OpenRefusal, TurnRefusal};
pub use power::PowerLoss;
pub use refusals::Refusal;
pub use script_day::{DAY_TRIES, day_tries_in_numbers};
pub use sector_device::{Device, MemoryDevice};
pub use text_grammar::LineFault;
pub use text_streams::StreamFault;
