//! Entries that are held for stations until their turns.
ghost use Rattle.std.specs.Prelude.{◌≡◌, ◌≢◌, ◌≤◌, ◌↔◌, [], ◌∷◌, ◌++◌, length, IfOk, IfSome};
ghost use Rattle.std.specs.Prelude.{IsNone};
ghost use Rattle.station_desk.specs.Messages.{entries_of};

use station_desk::Ask;
use std::alloc::{AllocError, Global};
use std::marker::Model;
use turn_ledger::Entry;

/// The most entries that one station may hold.
pub const HELD_LIMIT: usize = 16;

/// What one station holds, seen as the list of its entries. Its places are reserved when it is
/// made, so that keeping an entry takes no memory.
#[derive(Debug, Drop)]
pub struct HeldEntries {
    entries: Vec<Entry>,
}

impl Model for HeldEntries {
    ghost use Rattle.std.specs.Prelude.{List, ◌≤◌, length, vec_capacity};
    ghost use Rattle.turn_ledger.specs.declared.entry.Entry.{Entry};

    ghost Value = { List Entry };

    ghost view = { λ held. held.entries.items };

    ghost invariant = { λ held. (16 ≤ vec_capacity held.entries) × (length held.entries.items ≤ 16) };
}

impl HeldEntries {
    /// Nothing held.
    ///
    /// # Errors
    /// Out of memory.
    pub fn new(alloc: Global) -> Result<HeldEntries, AllocError>
        ensures { IfOk result (λ held. held ≡ []) }
    {
        Ok(HeldEntries {
            entries: Vec::with_capacity(alloc, HELD_LIMIT)?,
        })
    }

    /// What is held, in the order in which it was kept.
    pub fn as_slice(&self) -> &[Entry]
        ensures value { result.now ≡ self.now }
        ensures few { length result.now ≤ 16 }
    {
        self.entries.as_slice()
    }

    /// Keeps one more entry and answers how many are then held, or None if all places are taken.
    pub fn keep(&mut self, entry: Entry) -> Option<usize>
        ensures full { IsNone result ↔ (16 ≤ length self.old) }
        ensures kept { IfSome result (λ _. self.new ≡ self.old ++ entry ∷ []) }
        ensures count { IfSome result (λ count. count ≡ length self.new) }
        ensures untouched { IsNone result → self.new ≡ self.old }
    {
        let count = self.entries.len();
        if count >= HELD_LIMIT {
            return None;
        }
        self.entries.push(entry).unwrap();
        Some(count + 1)
    }

    /// Keeps the entries of these requests, and no others; of more than [`HELD_LIMIT`] the first
    /// ones.
    pub fn keep_all(&mut self, asks: &[Ask])
        ensures { length asks.now ≤ 16 → self.new ≡ entries_of asks.now }
    {
        self.clear();
        for ask in asks {
            let _ = self.keep(ask.entry);
        }
    }

    /// Forgets what is held.
    pub fn clear(&mut self)
        ensures { self.new ≡ [] }
    {
        self.entries.clear();
    }
}
