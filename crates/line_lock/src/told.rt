//! What a seat was told of an account, and whether a clerk bears it out.
ghost use Rattle.std.specs.Prelude.{◌≡◌, ◌==◌, ◌≤◌, ◌↔◌, if◌then◌else◌, length, IsTrue, Some};
ghost use Rattle.std.specs.Prelude.{SomeIff};
ghost use Rattle.turn_ledger.specs.State.{LedgerState, IsLedger, IsAccount, balance_of};
ghost use Rattle.turn_ledger.specs.Screen.{AreAccepted, accepted, posted_in_order};
ghost use Rattle.turn_ledger.specs.Ledger.{into, out_of};
ghost use Rattle.line_lock.specs.Account.{held_after, HeldThen};

use sector_device::Device;
use turn_clerk::Clerk;
use turn_ledger::{Batch, Entry};

/// A balance that a seat was told.
#[derive(Clone, Copy, Debug, PartialEq, Eq)]
pub struct ToldBalance {
    /// The number of the account that was asked about.
    pub account: u32,
    /// What it held.
    pub amount: u64,
    /// How many turns the office's history held then.
    pub turns: u64,
}

/// How far a ledger is, and how much room there is for more.
#[derive(Clone, Copy, Debug, PartialEq, Eq)]
pub struct Room {
    /// The number of the next batch.
    pub next: u64,
    /// How many slots of the live bank are free: so many batches more, and a checkpoint is made.
    pub free: u64,
}

// An amount of the account that it names, and nothing of another.
fn amount_of(account: u32, named: u32, amount: u64) -> u64
    ensures { result ≡ if named == account then amount else 0 }
{
    if named == account { amount } else { 0 }
}

// What an entry brings to an account.
fn brought(account: u32, entry: &Entry) -> u64
    ensures { result ≡ into account entry.now }
{
    match *entry {
        Entry::Deposit { to, amount, .. } => amount_of(account, to, amount),
        Entry::Withdraw { .. } => 0,
        Entry::Transfer { to, amount, .. } => amount_of(account, to, amount),
        Entry::Seal { .. } => 0,
    }
}

// What an entry takes from an account.
fn taken(account: u32, entry: &Entry) -> u64
    ensures { result ≡ out_of account entry.now }
{
    match *entry {
        Entry::Deposit { .. } => 0,
        Entry::Withdraw { from, amount, .. } => amount_of(account, from, amount),
        Entry::Transfer { from, amount, .. } => amount_of(account, from, amount),
        Entry::Seal { .. } => 0,
    }
}

// What an account holds after entries that are accepted, in order. No sum is ever greater than
// twice a ledger's total.
fn after_entries(account: u32, before: u64, entries: &[Entry]) -> u64
    ensures { (state : LedgerState) → IsLedger state → AreAccepted state entries.now
        → IsAccount account
        → before ≡ balance_of state account
        → result ≡ balance_of (posted_in_order state entries.now) account }
{
    let mut balance = before;
    for entry in entries {
        balance = balance
            .saturating_add(brought(account, entry))
            .saturating_sub(taken(account, entry));
    }
    balance
}

// What an account held after so many turns of the history, or None if there is no account of this
// number.
fn held_after<D: Device>(clerk: &Clerk<D>, account: u32, turns: usize) -> Option<u64>
    requires { turns ≤ length clerk.now.history }
    ensures { SomeIff result (IsAccount account) (held_after clerk.now turns account) }
{
    // for the contract alone: what the turns accepted is accepted, in order
    clerk.durable_prefix();
    let mut balance = clerk.opening_balance(account)?;
    for turn in &clerk.history()[..turns] {
        let accepted = Batch::of_accepted(turn.entries.as_slice(), &turn.verdicts);
        balance = after_entries(account, balance, accepted.as_slice());
    }
    Some(balance)
}

/// Whether an account held what was told of it.
pub(crate) fn was_held<D: Device>(clerk: &Clerk<D>, told: &ToldBalance) -> bool
    ensures { IsTrue result ↔ HeldThen clerk.now told.now }
{
    told.turns <= clerk.history().len() as u64
        && held_after(clerk, told.account, told.turns as usize) == Some(told.amount)
}

/// Whether what the clerk accepts of these entries is in flight.
pub(crate) fn are_in_flight<D: Device>(clerk: &Clerk<D>, entries: &Batch) -> bool
    ensures { IsTrue result
        ↔ (clerk.now.in_flight ≡ Some (accepted clerk.now.ledger entries.now)) }
{
    let asked = entries.as_slice();
    let accepted = Batch::of_accepted(asked, &clerk.ledger().screen(asked));
    match clerk.in_flight() {
        Some(batch) => batch == accepted,
        None => false,
    }
}
