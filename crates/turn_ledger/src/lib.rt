//! A ledger of numbered accounts, and the rules of its entries.
//!
//! Accounts are numbered from 1 to [`ACCOUNTS`], and each has a balance and a mark, which says
//! whether it is sealed. A sealed account keeps its balance for good. What all accounts hold
//! together never exceeds [`TOTAL_LIMIT`]. An [`Entry`] is a deposit, a withdrawal, a transfer or
//! the seal of an account; it is checked against the rules in their order, and either refused with
//! the first [`EntryRefusal`] that holds, which changes nothing, or posted.
//!
//! The test `an_example_of_a_turn` in `src/ledgers.rt` of the crate `test_examples` is an example.
#![tactic(auto)]

mod account_balances;
mod accounts;
mod batch;
mod entry;
mod laws;
mod ledger;
mod limits;
mod place;
mod refusal;
mod scratch;
mod verdicts;

pub use account_balances::AccountBalances;
pub use batch::Batch;
pub use entry::Entry;
pub use laws::{
    a_sealed_account_stays_as_it_is, a_yes_means_all_rules, accepted_entries_are_posted,
    batches_compose, entries_keep_their_table, later_entries_see_the_accepted, limits_in_numbers,
    nothing_is_lost_or_made, posting_gives_the_sums,
};
pub use ledger::Ledger;
pub use limits::{ACCOUNTS, ALL_ACCOUNTS, BATCH_LIMIT, ENTRY_BYTES, TOTAL_LIMIT};
pub use refusal::EntryRefusal;
pub use verdicts::Verdicts;
