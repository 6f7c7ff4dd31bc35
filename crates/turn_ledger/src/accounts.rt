//! Posting an entry, wherever the balances stand.
ghost use Rattle.std.specs.Prelude.{◌≡◌, ℕ, ◌+◌, ◌≤◌, ◌<◌, true, Ok, OnOk, OnErr};
ghost use Rattle.std.specs.List.{list_all};
ghost use Rattle.turn_ledger.specs.State.{LedgerState, IsAccount, IsLedger};
ghost use Rattle.turn_ledger.specs.State.{is_account as is_account_number, balance_of, total_of};
ghost use Rattle.turn_ledger.specs.State.{credited, debited, mark_of, sealed_at};
ghost use Rattle.turn_ledger.specs.Entry.{is_zero_amount, is_of_sealed, accounts_of};
ghost use Rattle.turn_ledger.specs.Entry.{is_to_itself as is_transfer_to_itself, own_checks};
ghost use Rattle.turn_ledger.specs.Entry.{state_checks, first_refusal, verdict, posted};

use crate::{ACCOUNTS, Entry, EntryRefusal, TOTAL_LIMIT};

/// Balances that entries are judged on and posted to: the ledger's own, or those that the screening
/// of a batch writes over them.
pub(crate) trait Accounts {
    /// What the accounts hold.
    ghost state: { Self → LedgerState };

    /// How many more balances there is room to change.
    ghost room: { Self → ℕ };

    /// What an account holds.
    fn held_by(&self, account: u32) -> u64
        requires { IsAccount account }
        ensures { result ≡ balance_of (state self.now) account };

    /// What all accounts hold together.
    fn held_by_all(&self) -> u64
        ensures value { result ≡ total_of (state self.now) }
        ensures ledger { IsLedger (state self.now) };

    /// Whether an account is sealed.
    fn is_marked(&self, account: u32) -> bool
        requires { IsAccount account }
        ensures { result ≡ mark_of (state self.now) account };

    /// Marks an account as sealed.
    fn mark(&mut self, account: u32)
        requires account { IsAccount account }
        requires room { 0 < room self.old }
        ensures state { state self.new ≡ sealed_at (state self.old) account }
        ensures room { room self.old ≤ room self.new + 1 };

    /// Adds an amount from outside to what an account holds.
    fn credit(&mut self, account: u32, amount: u64)
        requires account { IsAccount account }
        requires within_limit { total_of (state self.old) + amount ≤ TOTAL_LIMIT }
        requires room { 0 < room self.old }
        ensures state { state self.new ≡ credited (state self.old) account amount }
        ensures room { room self.old ≤ room self.new + 1 };

    /// Takes an amount from what an account holds.
    fn debit(&mut self, account: u32, amount: u64)
        requires account { IsAccount account }
        requires held { amount ≤ balance_of (state self.old) account }
        requires room { 0 < room self.old }
        ensures state { state self.new ≡ debited (state self.old) account amount }
        ensures room { room self.old ≤ room self.new + 1 };
}

/// Whether there is an account of this number.
#[inline]
pub(crate) fn is_account(number: u32) -> bool
    ensures { result ≡ is_account_number number }
{
    1 <= number && number <= ACCOUNTS
}

#[inline]
fn is_of_nothing(entry: &Entry) -> bool
    ensures { result ≡ is_zero_amount entry.now }
{
    match *entry {
        Entry::Deposit { amount, .. }
        | Entry::Withdraw { amount, .. }
        | Entry::Transfer { amount, .. } => amount == 0,
        Entry::Seal { .. } => false,
    }
}

#[inline]
fn names_only_accounts(entry: &Entry) -> bool
    ensures { result ≡ list_all is_account_number (accounts_of entry.now) }
{
    match *entry {
        Entry::Deposit { to, .. } => is_account(to),
        Entry::Withdraw { from, .. } => is_account(from),
        Entry::Transfer { from, to, .. } => is_account(from) && is_account(to),
        Entry::Seal { account, .. } => is_account(account),
    }
}

#[inline]
fn is_to_itself(entry: &Entry) -> bool
    ensures { result ≡ is_transfer_to_itself entry.now }
{
    match *entry {
        Entry::Deposit { .. } | Entry::Withdraw { .. } | Entry::Seal { .. } => false,
        Entry::Transfer { from, to, .. } => from == to,
    }
}

/// The checks of an entry that don't look at the state.
#[inline]
fn check_alone(entry: &Entry) -> Result<(), EntryRefusal>
    ensures { result ≡ first_refusal (own_checks entry.now) }
{
    if is_of_nothing(entry) {
        return Err(EntryRefusal::ZeroAmount);
    }
    if !names_only_accounts(entry) {
        return Err(EntryRefusal::NoAccount);
    }
    if is_to_itself(entry) {
        return Err(EntryRefusal::SameAccount);
    }
    Ok(())
}

/// The checks that look at the state, of an entry that passed the others.
#[inline]
fn check_on<A: Accounts>(accounts: &A, entry: &Entry) -> Result<(), EntryRefusal>
    requires { first_refusal (own_checks entry.now) ≡ Ok tt }
    ensures answer { result ≡ first_refusal (state_checks (A.state accounts.now) entry.now) }
    ensures ledger { IsLedger (A.state accounts.now) }
{
    let total = accounts.held_by_all();
    match *entry {
        Entry::Deposit { amount, .. } => {
            if amount > TOTAL_LIMIT - total {
                return Err(EntryRefusal::OverLimit);
            }
        }
        Entry::Withdraw { from, amount, .. } | Entry::Transfer { from, amount, .. } => {
            if accounts.held_by(from) < amount {
                return Err(EntryRefusal::Short);
            }
        }
        Entry::Seal { .. } => {}
    }
    if names_sealed(accounts, entry) {
        return Err(EntryRefusal::Sealed);
    }
    Ok(())
}

/// Whether an entry that names accounts alone names a sealed one.
#[inline]
fn names_sealed<A: Accounts>(accounts: &A, entry: &Entry) -> bool
    requires { list_all is_account_number (accounts_of entry.now) ≡ true }
    ensures { result ≡ is_of_sealed (A.state accounts.now) entry.now }
{
    match *entry {
        Entry::Deposit { to, .. } => accounts.is_marked(to),
        Entry::Withdraw { from, .. } => accounts.is_marked(from),
        Entry::Transfer { from, to, .. } => accounts.is_marked(from) || accounts.is_marked(to),
        Entry::Seal { account, .. } => accounts.is_marked(account),
    }
}

/// Posts an accepted entry.
#[inline]
pub(crate) fn change_balances<A: Accounts>(accounts: &mut A, entry: &Entry)
    requires ledger { IsLedger (A.state accounts.old) }
    requires accepted { verdict (A.state accounts.old) entry.now ≡ Ok tt }
    requires room { 2 ≤ A.room accounts.old }
    ensures state { A.state accounts.new ≡ posted (A.state accounts.old) entry.now }
    ensures room { A.room accounts.old ≤ A.room accounts.new + 2 }
{
    match *entry {
        Entry::Deposit { to, amount, .. } => accounts.credit(to, amount),
        Entry::Withdraw { from, amount, .. } => accounts.debit(from, amount),
        Entry::Transfer {
            from,
            to,
            amount,
            ..
        } => {
            accounts.debit(from, amount);
            accounts.credit(to, amount);
        }
        Entry::Seal { account, .. } => accounts.mark(account),
    }
}

/// Posts an entry, or refuses it.
#[inline]
pub(crate) fn post<A: Accounts>(accounts: &mut A, entry: &Entry) -> Result<(), EntryRefusal>
    requires { 2 ≤ A.room accounts.old }
    ensures answer { result ≡ verdict (A.state accounts.old) entry.now }
    ensures ok { OnOk result (A.state accounts.new ≡ posted (A.state accounts.old) entry.now) }
    ensures err { OnErr result (accounts.new ≡ accounts.old) }
    ensures room { A.room accounts.old ≤ A.room accounts.new + 2 }
{
    check_alone(entry)?;
    check_on(accounts, entry)?;
    change_balances(accounts, entry);
    Ok(())
}
