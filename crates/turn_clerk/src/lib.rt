//! The clerk of one ledger: it takes the turns of stations, journals what it accepts before it
//! answers, and keeps the history since its opening.
//!
//! The test `a_run_answers_each_event_in_order` in `src/clerks.rt` of the crate `test_examples` is
//! an example.
#![tactic(auto)]

mod batches;
mod clerk;
mod effects;
mod events;
mod journaling;
mod laws;
mod past;
mod refusals;
mod search_target;
mod searching;
mod turns;

pub use clerk::Clerk;
pub use events::{Event, Reply};
pub use four_state::{Line, Rule};
pub use journal_recovery::{Cause, OpenRefusal};
pub use laws::{lives_in_a_row, lives_join};
pub use refusals::{FindRefusal, TurnRefusal};
pub use search_target::{Posting, SearchTarget, later_posting};
pub use searching::{Reached, SEARCH_STEP, SearchStep, search};
pub use sector_device::Device;
pub use sweep_auditor::Move;
pub use turn_ledger::{BATCH_LIMIT, Batch, Entry, EntryRefusal, Ledger, Verdicts};
pub use turns::{Taken, Turn};
