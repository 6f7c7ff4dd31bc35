//! What the programs do with the words of their command lines: they read them, open the file, have
//! an engine do what is asked for, and tell how that ended.
//!
//! [`run_derbyfig`] is all of `derbyfig`, and [`run_console`] all of `turn_console`.
//! [`run_program`] and [`options`] are the parts of the latter that take words.
//!
//! The programs `derbyfig` and `turn_console` are examples.
#![tactic(auto)]

mod command_table;
mod commands;
mod console_faults;
mod console_program;
mod console_settings;
mod console_words;
mod derbyfig;
mod faults;
mod host;
mod invocation;
mod office_plan;
mod option_table;
mod running;
mod status;
mod telling;
mod words;
mod wrong_words;

pub use commands::VERSION;
pub use console_program::run_program;
pub use console_settings::Options;
pub use console_words::options;
pub use derbyfig::run_derbyfig;
pub use faults::Fault;
pub use front_scripts::{LineFault, ScriptFault};
pub use host::{run_console, run_derbyfig_words, words_given};
pub use invocation::{CopyOptions, Invocation, OlderLedger, Origin, ScriptFile, ScriptOptions};
pub use ledger_file::{FileFault, FormatOptions, LedgerRefusal};
pub use ledger_folder::{AddedBatches, ArchiveFault, ArchiveOptions};
pub use ledger_inspection::{Date, Format, Inspection, JournalWish, LockMode, Selection, Task};
pub use office_plan::plan_office;
pub use office_service::{FileLocks, ServeOptions, Surroundings};
pub use running::run_on_device;
pub use status::Status;
pub use words::read_invocation;
pub use wrong_words::WrongWords;
