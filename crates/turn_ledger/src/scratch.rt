//! What the screening of a batch changes, beside the ledger that stays as it is.
ghost use Rattle.std.specs.Prelude.{◌≡◌, ◌-◌, false, [], length, slice_index, slice_index_or};
ghost use Rattle.turn_ledger.specs.State.{IsAccount};
ghost use Rattle.turn_ledger.specs.Scratch.{changed, marked, IsKept};
ghost use Rattle.turn_ledger.specs.declared.limits.TheConstants.{ACCOUNTS};

use crate::accounts::Accounts;
use crate::{BATCH_LIMIT, Ledger};
use arrayvec::ArrayVec;

/// The most changes of one batch: an entry changes two balances at most, or sets a mark.
const CHANGES: usize = 2 * BATCH_LIMIT;

/// A balance written over that at a place, where account 1 has place 0.
#[derive(Clone, Copy, Default)]
pub(crate) struct Change {
    place: usize,
    balance: u64,
}

/// A ledger, what was written over its balances, and the places of the marks that were set. It is
/// as large as the changes of one batch, however many accounts there are.
#[derive(Drop)]
pub(crate) struct Scratch<'a> {
    ledger: &'a Ledger,
    total: u64,
    changes: ArrayVec<Change, CHANGES>,
    // a list of its own, since most batches seal nothing, and then no entry has to look for a mark
    seals: ArrayVec<usize, CHANGES>,
    ghost kept: { IsKept ledger.now total changes.items seals.items },
}

impl<'a> Scratch<'a> {
    /// Nothing written yet.
    pub(crate) fn of(ledger: &'a Ledger) -> Scratch<'a>
        ensures ledger { result.ledger.now ≡ ledger.now }
        ensures changes { result.changes.items ≡ [] }
        ensures seals { result.seals.items ≡ [] }
    {
        Scratch {
            ledger,
            total: ledger.total(),
            changes: ArrayVec::new(),
            seals: ArrayVec::new(),
        }
    }
}

/// What an account of the ledger holds after the changes.
#[inline]
fn latest(ledger: &Ledger, changes: &[Change], account: u32) -> u64
    requires account { IsAccount account }
    requires balances { length ledger.now.balances ≡ ACCOUNTS }
    ensures { result ≡ slice_index (changed ledger.now.balances changes.now) (account - 1) }
{
    let place = account as usize - 1;
    let mut balance = ledger.held_by(account);
    for change in changes {
        if change.place == place {
            balance = change.balance;
        }
    }
    balance
}

/// Whether an account of the ledger is sealed, once the marks at these places are set.
#[inline]
fn has_mark(ledger: &Ledger, places: &[usize], account: u32) -> bool
    requires account { IsAccount account }
    requires marks { length ledger.now.sealed ≡ ACCOUNTS }
    ensures { result ≡ slice_index_or (marked ledger.now.sealed places.now) (account - 1) false }
{
    let own = account as usize - 1;
    let mut is_marked = ledger.is_marked(account);
    for place in places {
        if *place == own {
            is_marked = true;
        }
    }
    is_marked
}

impl Accounts for Scratch<'_> {
    ghost use Rattle.turn_ledger.specs.ScratchState.{scratch_state, room_of};

    ghost state = { scratch_state };

    ghost room = { room_of };

    #[inline]
    fn held_by(&self, account: u32) -> u64 {
        latest(self.ledger, self.changes.as_slice(), account)
    }

    #[inline]
    fn held_by_all(&self) -> u64 {
        self.total
    }

    #[inline]
    fn is_marked(&self, account: u32) -> bool {
        has_mark(self.ledger, self.seals.as_slice(), account)
    }

    #[inline]
    fn mark(&mut self, account: u32) {
        self.seals.push(account as usize - 1);
    }

    #[inline]
    fn credit(&mut self, account: u32, amount: u64) {
        let balance = self.held_by(account) + amount;
        self.total += amount;
        self.changes.push(Change {
            place: account as usize - 1,
            balance,
        });
    }

    #[inline]
    fn debit(&mut self, account: u32, amount: u64) {
        let balance = self.held_by(account) - amount;
        self.total -= amount;
        self.changes.push(Change {
            place: account as usize - 1,
            balance,
        });
    }
}
