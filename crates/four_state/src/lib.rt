//! A line of stations that take turns: the solution with four-state machines of E. W. Dijkstra,
//! "Self-stabilizing systems in spite of distributed control", Communications of the ACM 17(11),
//! 1974.
//!
//! Contracts see a [`Line`] as a configuration: the list of the bits x and the list of the bits up,
//! each from the bottom station to the top one.
//!
//! The test `an_example_of_a_move` in `src/lines.rt` of the crate `test_examples` is an example.
#![tactic(auto)]

mod bits;
pub mod laws;
mod lines;
mod refusals;
mod rules;

pub use lines::{FEWEST_STATIONS, Line, MOST_STATIONS};
pub use refusals::LineRefusal;
pub use rules::Rule;
