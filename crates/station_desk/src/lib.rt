//! The two rings between a client and its station: requests go one way and answers come back, in
//! order, and neither side waits for the other.
//!
//! A client has a [`Feed`]: it submits entries, each under a ticket, and collects the answers. A
//! station has a [`Desk`]: it gathers requests, takes a turn with their entries, and answers each
//! of them, once.
//!
//! The test `clients_beside_stations` in `src/threads/clients.rt` of the crate `test_examples` is
//! an example.
#![tactic(auto)]

mod desk_end;
mod end;
mod errand;
mod feed;
mod gate;
mod giving;
mod held;
mod messages;
mod reconciling;
mod rings;
mod shown;
mod stations;

pub use desk_end::Desk;
pub use end::{End, EndName};
pub use errand::{Errand, Question, Report};
pub use feed::Feed;
pub use gate::Gate;
pub use line_lock::{
    BalanceRefusal, Count, FindRefusal, Office, OpenedOn, Posting, Reached, Room, SearchStep,
    SearchTarget, Seat,
};
pub use messages::{Answer, Ask, Outcome};
pub use reconciling::{Reconciled, reconcile};
pub use rings::desk;
pub use sector_device::Device;
pub use stations::{Station, run_stations};
pub use turn_clerk::{Turn, TurnRefusal};
pub use turn_ledger::{Entry, EntryRefusal};
