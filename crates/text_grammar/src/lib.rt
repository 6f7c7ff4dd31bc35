//! The grammar of a script and of what a counter says: lines, their words, and the command or
//! request that they spell.
//!
//! A script is bytes. [`Lines`] gives its lines one after another, and [`read_command`] reads a
//! line: it answers the [`Command`], none where the line says nothing, or the first [`LineFault`]
//! that holds.
//!
//! A counter is a client of an office that stays open. It says one request a line, in a stream that
//! comes byte after byte: a [`LineCutter`] cuts it into lines, and [`read_request`] reads one as a
//! [`Request`].
//!
//! The tests `each_command_is_read` and `each_request_is_read` in `src/grammar.rt` of the crate
//! `test_examples` are examples.
#![tactic(auto)]

mod commands;
mod cutting;
mod entries;
mod faults;
mod numbers;
mod places;
mod requests;
mod words;

pub use commands::{Command, read_command};
pub use cutting::{Cut, LINE_LIMIT, LineCutter, line_limit_in_numbers};
pub use faults::LineFault;
pub use numbers::{Bits, KeptBits};
pub use places::DAY_LIMIT;
pub use requests::{Request, read_request};
pub use turn_ledger::Entry;
pub use words::Lines;
