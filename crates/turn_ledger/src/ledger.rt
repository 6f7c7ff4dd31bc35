//! The ledger.
ghost use Rattle.std.specs.Prelude.{◌≡◌, ◌<◌, ◌≤◌, ◌↔◌, true, false, length, replicate, sum, IfOk};
ghost use Rattle.std.specs.Prelude.{Ok, OnOk, OnErr, SomeIff};
ghost use Rattle.turn_ledger.specs.State.{IsAccount, IsLedger, balance_of, mark_of, total_of};
ghost use Rattle.turn_ledger.specs.State.{state_of, empty_ledger};
ghost use Rattle.turn_ledger.specs.AccountList.{accounts_of};
ghost use Rattle.turn_ledger.specs.Entry.{verdict, posted};
ghost use Rattle.turn_ledger.specs.Screen.{screened};

use crate::accounts::{Accounts, change_balances, is_account, post};
use crate::scratch::Scratch;
use crate::{
    ALL_ACCOUNTS, AccountBalances, BATCH_LIMIT, Entry, EntryRefusal, TOTAL_LIMIT, Verdicts,
};
use std::alloc::{AllocError, Global};
use std::marker::Model;

/// The balances of all accounts with their total, and a mark for each account.
#[derive(Debug, Drop)]
pub struct Ledger {
    balances: Vec<u64>,
    // whether each account is sealed
    sealed: Vec<bool>,
    total: u64,
}

impl Model for Ledger {
    ghost use Rattle.std.specs.Prelude.{◌≡◌, sum};
    ghost use Rattle.turn_ledger.specs.State.{LedgerState, IsLedger, state_of};

    ghost Value = { LedgerState };

    ghost view = { λ ledger. state_of ledger.balances.items ledger.sealed.items };

    ghost invariant = { λ ledger. IsLedger (state_of ledger.balances.items ledger.sealed.items)
        × (ledger.total ≡ sum ledger.balances.items) };
}

impl Ledger {
    /// The empty ledger: every account at zero, and none of them sealed.
    ///
    /// # Errors
    /// Out of memory.
    pub fn new(alloc: Global) -> Result<Ledger, AllocError>
        ensures { IfOk result (λ ledger. ledger ≡ empty_ledger) }
    {
        Ok(Ledger {
            balances: zeros(alloc, ALL_ACCOUNTS)?,
            sealed: clear_marks(alloc, ALL_ACCOUNTS)?,
            total: 0,
        })
    }

    /// Takes over the balances and the marks of another ledger, and takes no memory.
    pub fn copy_from(&mut self, other: &Ledger)
        ensures copied { self.new ≡ other.now }
        ensures ledger { IsLedger self.new }
    {
        self.balances.copy_from_slice(other.balances.as_slice());
        self.sealed.copy_from_slice(other.sealed.as_slice());
        self.total = other.total;
    }

    /// The balances of all accounts, account 1 first.
    pub fn balances(&self) -> &[u64; ALL_ACCOUNTS]
        ensures value { result.now ≡ self.now.balances }
        ensures ledger { IsLedger self.now }
    {
        whole_array(self.balances.as_slice())
    }

    /// The marks of all accounts, account 1 first: whether each is sealed.
    pub fn marks(&self) -> &[bool; ALL_ACCOUNTS]
        ensures value { result.now ≡ self.now.sealed }
        ensures ledger { IsLedger self.now }
    {
        whole_array(self.sealed.as_slice())
    }

    /// Takes over these balances and these marks, account 1 first, and takes no memory. Where the
    /// balances are over the limit together it answers false, and the ledger stays as it is.
    pub fn restore(&mut self, balances: &[u64; ALL_ACCOUNTS], sealed: &[bool; ALL_ACCOUNTS]) -> bool
        ensures refused { (result ≡ false) ↔ (TOTAL_LIMIT < sum balances.now) }
        ensures restored { result ≡ true → self.new ≡ state_of balances.now sealed.now }
        ensures stays { result ≡ false → self.new ≡ self.old }
        ensures ledger { IsLedger self.new }
    {
        // for the contract alone: what every ledger keeps
        let _ = &self.total;
        let Some(total) = sum_within_limit(balances) else {
            return false;
        };
        self.balances.copy_from_slice(balances);
        self.sealed.copy_from_slice(sealed);
        self.total = total;
        true
    }

    /// What an account holds, or None if there is no account of this number.
    pub fn balance(&self, account: u32) -> Option<u64>
        ensures { SomeIff result (IsAccount account) (balance_of self.now account) }
    {
        if is_account(account) {
            Some(self.held_by(account))
        } else {
            None
        }
    }

    /// Whether an account is sealed, or None if there is no account of this number.
    pub fn is_sealed(&self, account: u32) -> Option<bool>
        ensures { SomeIff result (IsAccount account) (mark_of self.now account) }
    {
        if is_account(account) {
            Some(self.sealed[account as usize - 1])
        } else {
            None
        }
    }

    /// All accounts, account 1 first, each with what it holds.
    pub fn accounts(&self) -> AccountBalances<'_>
        ensures { result ≡ accounts_of self.now }
    {
        AccountBalances {
            ledger: self,
            next: 1,
        }
    }

    /// What all accounts hold together: at most [`TOTAL_LIMIT`].
    pub fn total(&self) -> u64
        ensures value { result ≡ total_of self.now }
        ensures ledger { IsLedger self.now }
    {
        self.held_by_all()
    }

    /// Posts an entry.
    ///
    /// # Errors
    /// [`EntryRefusal`], the first rule that the entry breaks. Nothing has changed.
    pub fn post(&mut self, entry: &Entry) -> Result<(), EntryRefusal>
        ensures answer { result ≡ verdict self.old entry.now }
        ensures ok { OnOk result (self.new ≡ posted self.old entry.now) }
        ensures err { OnErr result (self.new ≡ self.old) }
    {
        post(self, entry)
    }

    /// Posts an accepted entry, and judges it no more.
    pub fn post_accepted(&mut self, entry: &Entry)
        requires { verdict self.old entry.now ≡ Ok tt }
        ensures { self.new ≡ posted self.old entry.now }
    {
        // for the contract alone: what every ledger keeps
        let _ = &self.total;
        change_balances(self, entry);
    }

    /// The verdicts of a list of at most [`BATCH_LIMIT`] entries, each judged after the accepted
    /// ones before it. Nothing is posted.
    pub fn screen(&self, entries: &[Entry]) -> Verdicts
        requires { length entries.now ≤ BATCH_LIMIT }
        ensures verdicts { result ≡ screened self.now entries.now }
        ensures ledger { IsLedger self.now }
    {
        let mut scratch = Scratch::of(self);
        let mut verdicts = Verdicts::none();
        for entry in entries {
            verdicts.push(post(&mut scratch, entry));
        }
        verdicts
    }
}

// So many zeros.
fn zeros(alloc: Global, count: usize) -> Result<Vec<u64>, AllocError>
    ensures { IfOk result (λ balances. balances.items ≡ replicate count 0) }
{
    vec![in alloc; 0; count]
}

// So many marks of accounts that aren't sealed.
fn clear_marks(alloc: Global, count: usize) -> Result<Vec<bool>, AllocError>
    ensures { IfOk result (λ marks. marks.items ≡ replicate count false) }
{
    vec![in alloc; false; count]
}

// The slice as an array, all of it.
fn whole_array<T, const N: usize>(items: &[T]) -> &[T; N]
    requires { length items.now ≡ N }
    ensures { result.now ≡ items.now }
{
    items.as_array().unwrap()
}

// What they are together, or None where that is over the limit.
fn sum_within_limit(balances: &[u64]) -> Option<u64>
    ensures { SomeIff result (sum balances.now ≤ TOTAL_LIMIT) (sum balances.now) }
{
    let mut total: u64 = 0;
    for balance in balances {
        if *balance > TOTAL_LIMIT - total {
            return None;
        }
        total += *balance;
    }
    Some(total)
}

impl Accounts for Ledger {
    ghost state = { λ ledger. ledger };

    ghost room = { λ _. 2 };

    fn held_by(&self, account: u32) -> u64 {
        self.balances[account as usize - 1]
    }

    fn held_by_all(&self) -> u64 {
        self.total
    }

    fn is_marked(&self, account: u32) -> bool {
        self.sealed[account as usize - 1]
    }

    fn mark(&mut self, account: u32) {
        self.sealed[account as usize - 1] = true;
    }

    fn credit(&mut self, account: u32, amount: u64) {
        self.balances[account as usize - 1] += amount;
        self.total += amount;
    }

    fn debit(&mut self, account: u32, amount: u64) {
        self.balances[account as usize - 1] -= amount;
        self.total -= amount;
    }
}
