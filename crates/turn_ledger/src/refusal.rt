//! Why an entry is refused.

use thiserror::Error;

/// The first rule, in this order, that an entry breaks.
#[derive(Clone, Copy, Debug, PartialEq, Eq, Hash, Error)]
pub enum EntryRefusal {
    /// The amount is 0.
    #[error("the amount is zero")]
    ZeroAmount,
    /// An account that the entry names is outside 1 to [`crate::ACCOUNTS`].
    #[error("there is no such account")]
    NoAccount,
    /// A transfer names one account twice.
    #[error("a transfer needs two accounts")]
    SameAccount,
    /// A withdrawal or a transfer takes more than its source holds.
    #[error("the account holds too little")]
    Short,
    /// A deposit would bring the total over [`crate::TOTAL_LIMIT`].
    #[error("the total of all accounts would pass its limit")]
    OverLimit,
    /// An account that the entry names is sealed.
    #[error("the account is sealed")]
    Sealed,
}
