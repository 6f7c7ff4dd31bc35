//! The engine of an archive: a folder of ledgers, each made whole and never written again, with the
//! records of one ledger in order.
//!
//! [`archive`] adds what the archive lacks of a ledger, and [`archive_journal`] of one that
//! somebody has open; [`newest_of`] opens the ledger with which it ends, and [`check_no_gap`] finds
//! a file that is missing between others. [`copy_to_folder`] makes a copy of a ledger in a folder
//! for such copies. `checks/books.sh` has examples.
#![tactic(auto)]

mod archiving;
mod copying;
mod faults;
mod folder;
mod gaps;
mod system_folder;

pub use archiving::{AddedBatches, ArchiveOptions, archive, archive_journal, newest_of};
pub use copying::{CopyPaths, copy_to_folder, open_copies};
pub use faults::{ArchiveFault, Part, Volume};
pub use folder::{LockedFolder, is_folder, numbers_in};
pub use gaps::{check_no_gap, end_of};
pub use system_folder::SystemFolder;
