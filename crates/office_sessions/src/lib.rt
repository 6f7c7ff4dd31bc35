//! An office that stays open for counters that come and go.
//!
//! A counter is a client of one station. It says a request a line, and each is answered by a line,
//! in order, as soon as it is durable. [`keep_open`] runs an office for counters over any streams.
//!
//! Each counter has two threads, one that reads what it says and one that writes what it is told.
//! They own ends of rings alone, and may wait for the counter forever. One thread more, the
//! dispatcher, holds every feed, and never reads nor writes. Each station has a thread of its own.
//! The scheduler is what they share: it wakes whom there is work for.
//!
//! The test `a_counter_is_answered_in_order` in `src/counters.rt` of the crate `test_examples` is
//! an example.
#![tactic(auto)]

mod conversation;
mod counter;
mod dispatcher;
mod granted;
mod identity;
mod laws;
mod look;
mod messages;
mod open_office;
mod opening;
mod postings;
mod reader;
mod recent;
mod recess;
mod replies;
mod responses;
mod scheduler;
mod search;
mod session;
mod status;
mod wakers;
mod writer;

pub use conversation::Conversation;
pub use counter::{Counter, CounterKind};
pub use granted::are_threads_granted;
pub use identity::Identity;
pub use laws::looks_cover;
pub use line_lock::Posting;
pub use look::{Look, LookAnswer, last_posting};
pub use messages::{Message, WrongLine};
pub use open_office::{ClosedOffice, LiveRefusal, keep_open};
pub use recess::{ArchiveState, CounterCopyRefusal, Keeper};
pub use responses::{Judgement, REQUESTS, Response};
pub use status::{Clients, OfficeStatus};
pub use turn_ledger::Entry;
