//! Why a turn within a limit was not taken, and why a balance isn't told.

use thiserror::Error;
use turn_clerk::TurnRefusal;

/// Why a turn within a limit was not taken: the first, in this order, that holds; out of memory for
/// the seat's list stands before both.
#[derive(Clone, Copy, Debug, PartialEq, Eq, Error)]
pub enum WithinRefusal {
    /// The history holds as many turns as the limit, or more.
    #[error("the limit of turns is reached")]
    Reached,
    /// The turn was refused.
    #[error("{0}")]
    Turn(#[from] TurnRefusal),
}

/// Why an account's balance was not told: the first, in this order, that holds.
#[derive(Clone, Copy, Debug, PartialEq, Eq, Error)]
pub enum BalanceRefusal {
    /// A device fault was met in an earlier turn, so that whether that turn stands isn't known.
    #[error("a device fault was met and the device must be opened again")]
    Faulted,
    /// There is no account of this number.
    #[error("there is no such account")]
    NoAccount,
}
