//! Laws of the rules, each as the contract of a function that does nothing.
ghost use Rattle.std.specs.Prelude.{◌≡◌, ◌↔◌, ◌<◌, ◌≤◌, ℕ, Bool, true, List, length, slice_index};
ghost use Rattle.turn_ledger.specs.State.{LedgerState, IsAccount, IsLedger};
ghost use Rattle.turn_ledger.specs.Place.{place_bytes, IsInRange};
ghost use Rattle.turn_ledger.specs.PlaceTable.{KeepsPlace};
ghost use Rattle.turn_ledger.specs.declared.entry.Entry.{Entry};
ghost use Rattle.turn_ledger.specs.Laws.{AYesMeansAllRules, PostingGivesTheSums};
ghost use Rattle.turn_ledger.specs.Laws.{NothingIsLostOrMade, ASealedAccountStaysAsItIs};
ghost use Rattle.turn_ledger.specs.Laws.{BatchesCompose, AcceptedEntriesArePosted};
ghost use Rattle.turn_ledger.specs.Laws.{LaterEntriesSeeTheAccepted};

use crate::{BATCH_LIMIT, TOTAL_LIMIT};

/// The limits in numbers: accounts are numbered 1 to 1,024, each has a balance and a mark, all of
/// them together hold at most 10^18, a batch has at most 15 entries, and an entry is written in 32
/// bytes.
pub fn limits_in_numbers()
    ensures accounts { (account : ℕ) → IsAccount account ↔ ((1 ≤ account) × (account ≤ 1024)) }
    ensures balances { (state : LedgerState) → IsLedger state → length state.balances ≡ 1024 }
    ensures marks { (state : LedgerState) → IsLedger state → length state.sealed ≡ 1024 }
    ensures total { TOTAL_LIMIT ≡ 1000000000000000000 }
    ensures batch { BATCH_LIMIT ≡ 15 }
    ensures place { (entry : Entry) → length (place_bytes entry) ≡ 32 }
{}

/// The table of a place says of bytes what the entries do: those of an entry keep it, and 32 bytes
/// that keep it are those of an entry.
pub fn entries_keep_their_table()
    ensures keep { (entry : Entry) → KeepsPlace true (place_bytes entry) }
    ensures kept { (seals : Bool) (bytes : List ℕ) → length bytes ≡ 32
        → ((at : ℕ) → slice_index bytes at < 256) → KeepsPlace seals bytes
        → (entry : Entry) × IsInRange entry × (bytes ≡ place_bytes entry) }
{}

/// An entry is accepted exactly if it keeps all rules: its amount isn't zero (a seal has none), the
/// accounts that it names are accounts, a transfer names two, its source holds enough, the total
/// stays within its limit, and no account that it names is sealed.
pub fn a_yes_means_all_rules()
    ensures { AYesMeansAllRules }
{}

/// Entries that are accepted, in order, posted one after another, leave the ledger after their
/// batches: each account has what it held and what came in, less what went out, and is sealed if it
/// was or if an entry seals it.
pub fn posting_gives_the_sums()
    ensures { PostingGivesTheSums }
{}

/// What an account has after batches and all that went out of it are what it held and all that came
/// in.
pub fn nothing_is_lost_or_made()
    ensures { NothingIsLostOrMade }
{}

/// The ledger after more batches is that after the later ones, from that after the earlier ones.
pub fn batches_compose()
    ensures { BatchesCompose }
{}

/// The accepted entries of a list are accepted again, in order, and posting them one after another
/// leaves the ledger after them as one batch.
pub fn accepted_entries_are_posted()
    ensures { AcceptedEntriesArePosted }
{}

/// Later entries of a list are judged on the state that the accepted ones before them leave.
pub fn later_entries_see_the_accepted()
    ensures { LaterEntriesSeeTheAccepted }
{}

/// An account that is sealed keeps its balance and stays sealed through any accepted batches.
pub fn a_sealed_account_stays_as_it_is()
    ensures { ASealedAccountStaysAsItIs }
{}
