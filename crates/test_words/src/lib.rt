//! Words of a console for tests: what a line asks of a device, a journal, a ledger, a line of
//! stations or a listing, each with one public call of the library. What needs a clerk, an office,
//! a desk or an archive in memory is asked by the program `test_console`.
//!
//! A [`Scene`] is what a script has in hand. A word that isn't one of that is told, and changes
//! nothing. What a call requires is asked first. But for the three calls of a device, no word has a
//! type parameter, so that each is proved once, as it is compiled.
#![tactic(auto)]

mod bench;
mod builders;
mod copies;
mod crashes;
mod devices;
mod entries;
mod journals;
mod ledgers;
mod lines;
mod listings;
mod said;
mod scene;
mod stacked;
mod switch;
mod told;

pub use bench::Bench;
pub use devices::set_fault;
pub use entries::read_entries;
pub use lines::read_line;
pub use said::Said;
pub use scene::{Hand, Scene};
pub use told::Told;
