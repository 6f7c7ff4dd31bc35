//! The parts of an entry.
use crate::kind::RowKind;
use std::alloc::{AllocError, Global};
use turn_ledger::{Batch, Entry};

/// The parts of an entry. Those that its kind does not have are `None`.
#[derive(Clone, Copy, Debug, PartialEq, Eq)]
pub(crate) struct Parts {
    pub(crate) kind: RowKind,
    /// The account that it takes from or seals.
    pub(crate) from: Option<u32>,
    /// The account that it brings to.
    pub(crate) to: Option<u32>,
    pub(crate) amount: Option<u64>,
    pub(crate) reference: u64,
}

impl From<&Entry> for Parts {
    fn from(entry: &Entry) -> Parts {
        let (kind, from, to, amount) = match *entry {
            Entry::Deposit { to, amount, .. } => (RowKind::Deposit, None, Some(to), Some(amount)),
            Entry::Withdraw { from, amount, .. } => (
                RowKind::Withdraw,
                Some(from),
                None,
                Some(amount),
            ),
            Entry::Transfer {
                from,
                to,
                amount,
                ..
            } => (RowKind::Transfer, Some(from), Some(to), Some(amount)),
            Entry::Seal { account, .. } => (RowKind::Seal, Some(account), None, None),
        };
        Parts {
            kind,
            from,
            to,
            amount,
            reference: entry.reference(),
        }
    }
}

/// The accounts that entries name, ascending, each once.
pub(crate) fn accounts_named(alloc: Global, entries: &Batch) -> Result<Vec<u32>, AllocError> {
    let mut accounts = Vec::new(alloc);
    for entry in entries {
        let parts = Parts::from(entry);
        for account in [parts.from, parts.to] {
            if let Some(account) = account {
                accounts.push(account)?;
            }
        }
    }
    accounts.sort()?;
    accounts.dedup();
    Ok(accounts)
}
