//! Why there was no day.
use journal_recovery::OpenRefusal;
use line_lock::CloseRefusal;
use thiserror::Error;

/// Why an office had no day, or none that could be accounted for.
#[derive(Clone, Copy, Debug, PartialEq, Eq, Error)]
pub enum DayRefusal {
    /// There isn't enough memory.
    #[error("out of memory")]
    Memory,
    /// The office can't be opened.
    #[error("{0}")]
    Opening(OpenRefusal),
    /// The office can't be closed.
    #[error("{0}")]
    Closing(CloseRefusal),
}
