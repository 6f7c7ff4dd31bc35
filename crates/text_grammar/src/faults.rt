//! Why a line is none of the grammar.
use thiserror::Error;

/// What is wrong with a line; the first that holds, in this order.
#[derive(Clone, Copy, Debug, PartialEq, Eq, Error)]
pub enum LineFault {
    /// The first word is no command, or the third word of `post` no kind of entry.
    #[error("unknown command")]
    UnknownCommand,
    /// The command has fewer or more words than it takes.
    #[error("wrong number of words")]
    WrongNumberOfWords,
    /// A word that should be a number is none, or out of range.
    #[error("bad number")]
    BadNumber,
    /// A word that should be bits has another character than `0` and `1`.
    #[error("bad bits")]
    BadBits,
}
