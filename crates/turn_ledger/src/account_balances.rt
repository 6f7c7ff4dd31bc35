//! The accounts of a ledger, one after another.

use crate::Ledger;
use std::marker::Model;

/// The accounts of a ledger with what each holds, account 1 first, seen as the list of those that
/// are still to come. [`Ledger::accounts`] gives it.
#[derive(Debug, Drop)]
pub struct AccountBalances<'a> {
    pub(crate) ledger: &'a Ledger,
    // the account that comes next
    pub(crate) next: u32,
}

impl<'a> Model for AccountBalances<'a> {
    ghost use Rattle.std.specs.Prelude.{ℕ, ◌+◌, ◌≤◌, List};
    ghost use Rattle.turn_ledger.specs.AccountList.{accounts_from};
    ghost use Rattle.turn_ledger.specs.declared.limits.TheConstants.{ACCOUNTS};

    ghost Value = { List (ℕ × ℕ) };

    ghost view = { λ all. accounts_from all.ledger.now all.next };

    ghost invariant = { λ all. (1 ≤ all.next) × (all.next ≤ ACCOUNTS + 1) };
}

impl<'a> Iterator for AccountBalances<'a> {
    type Item = (u32, u64);

    ghost use Rattle.std.specs.Iterator.{YieldsFirst, item_count};

    ghost next_gives = { YieldsFirst (λ all. all) };

    ghost remaining = { item_count (λ all. all) };

    #[tactic(auto, using(crate::proofs::InOrder::first_account_first))]
    fn next(&mut self) -> Option<(u32, u64)> {
        let account = self.next;
        let balance = self.ledger.balance(account)?;
        self.next += 1;
        Some((account, balance))
    }
}
