//! What is asked of ledgers.
use device_files::LockMode;
use ledger_printing::{Date, Format, JournalWish};

/// What is to be done with a ledger, or with several that are read as one book.
#[derive(Debug, Drop)]
pub struct Inspection<'a> {
    /// The paths of the ledgers, in order: one at least. A folder stands for the ledgers of the
    /// archive in it.
    pub paths: Vec<&'a str>,
    /// How others are kept off each of them.
    pub locking: LockMode,
    pub task: Task,
}

/// What is to be done with a ledger or a book.
#[derive(Clone, Copy, Debug)]
pub enum Task {
    /// To tell whether it is sound; by the status alone if it is quiet.
    Check {
        quiet: bool,
    },
    /// To print its records.
    Journal(JournalWish),
    /// To print what its accounts hold, or held before the record with that sequence number. The
    /// date is that of the transaction for `hledger`.
    Balances {
        format: Format,
        date: Date,
        at: Option<u64>,
    },
    /// To draw the sectors of a ledger. A book is found sound, and isn't drawn.
    Map,
}
