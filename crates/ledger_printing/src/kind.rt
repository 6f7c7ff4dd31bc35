//! What a line tells of.
use serde::{Described, Serialize, Serializer};

/// What a row tells of, by its word.
#[derive(Clone, Copy, Debug, PartialEq, Eq)]
pub(crate) enum RowKind {
    Deposit,
    Withdraw,
    Transfer,
    Seal,
    /// What an account held before the first record.
    Snapshot,
    /// That an account was sealed before the first record.
    Sealed,
}

impl RowKind {
    /// The word.
    pub(crate) fn name(self) -> &'static str {
        match self {
            RowKind::Deposit => "deposit",
            RowKind::Withdraw => "withdraw",
            RowKind::Transfer => "transfer",
            RowKind::Seal => "seal",
            RowKind::Snapshot => "snapshot",
            RowKind::Sealed => "sealed",
        }
    }
}

impl Described for RowKind {}

/// Its word.
impl Serialize for RowKind {
    fn serialize<S: Serializer>(&self, out: &mut S) -> Result<(), S::Error> {
        out.str(self.name())
    }
}
