//! The streams of a script: it is read whole from a reader, within limits, and what it prints is
//! gathered and handed to a writer in large pieces. Of a writer that is [`WatchedWriter`] it is
//! known whether its reader went away.
//!
//! The test `lines_are_gathered_to_65536_bytes` in `src/streams.rt` of the crate `test_examples` is
//! an example.
#![tactic(auto)]

mod faults;
mod output;
mod reading;
mod watched;

pub use faults::{OutputFault, StreamFault};
pub use output::{Output, WriteFault, write_all};
pub use reading::{SCRIPT_LIMIT, limit_in_numbers, read_script};
pub use watched::WatchedWriter;
