//! Audits a list of moves of a line: whether it is a run, where it ends, and from which
//! configuration on exactly one privilege is present.
//!
//! The test `a_legitimate_line_sweeps_up_and_down` in `src/sweeps.rt` of the crate `test_examples`
//! is an example.
#![tactic(auto)]

mod audits;
pub mod laws;
mod moves;

pub use audits::audit;
pub use four_state::{Line, Rule};
pub use moves::{Audit, AuditRefusal, Move};
