//! The entries of one turn.
ghost use Rattle.std.specs.Prelude.{◌≡◌, ◌↔◌, ◌≤◌, ◌<◌, [], ◌∷◌, ◌++◌, length, slice_get, IsTrue};
ghost use Rattle.turn_ledger.specs.Screen.{with_yes};
ghost use Rattle.std.specs.Slice.Iter.{iter_rest};

use crate::{BATCH_LIMIT, Entry, Verdicts};
use std::marker::Model;
use std::slice;

/// What stands at an unused place. No call shows it.
const UNUSED: Entry = Entry::Deposit {
    to: 0,
    amount: 0,
    reference: 0,
};

/// At most [`BATCH_LIMIT`] entries in order, which lie in the value itself.
#[derive(Clone, Copy, Debug, PartialEq, Eq, Hash)]
pub struct Batch {
    entries: [Entry; BATCH_LIMIT],
    count: usize,
}

impl Model for Batch {
    ghost use Rattle.std.specs.Prelude.{List, ◌++◌, length, take};
    ghost use Rattle.turn_ledger.specs.declared.entry.Entry.{Entry};
    ghost use Rattle.turn_ledger.specs.InPlace.{IsFilled, filled, filled-take};
    ghost use Rattle.turn_ledger.specs.declared.batch.TheConstants.{UNUSED};

    ghost Value = { List Entry };

    ghost view = { λ batch. take batch.count batch.entries };

    ghost invariant = { λ batch. IsFilled UNUSED batch.entries batch.count };

    ghost inverse = { λ entries. record { entries = filled UNUSED entries; count = length entries } };

    ghost inverse_ok = { λ batch h i. record {
      entries = (filled-take UNUSED batch.entries batch.count h).0 i;
      count = (filled-take UNUSED batch.entries batch.count h).1 i;
    } };
}

impl Batch {
    /// The batch of these entries, [`BATCH_LIMIT`] at most.
    pub fn of(entries: &[Entry]) -> Batch
        requires { length entries.now ≤ BATCH_LIMIT }
        ensures { result ≡ entries.now }
    {
        let mut batch = Batch::none();
        batch.fill(entries);
        batch
    }

    /// Puts entries, [`BATCH_LIMIT`] at most, into a batch that has none. A batch that is made so
    /// stands where it is kept from the first on, where `of` has to bring it there.
    #[inline]
    pub fn fill(&mut self, entries: &[Entry])
        requires none { self.old ≡ [] }
        requires few { length entries.now ≤ BATCH_LIMIT }
        ensures { self.new ≡ entries.now }
    {
        self.entries[..entries.len()].copy_from_slice(entries);
        self.count = entries.len();
    }

    /// The batch of the accepted entries, in order. There is a verdict for each entry.
    pub fn of_accepted(entries: &[Entry], verdicts: &Verdicts) -> Batch
        requires few { length entries.now ≤ BATCH_LIMIT }
        requires each { length verdicts.now ≡ length entries.now }
        ensures { result ≡ with_yes entries.now verdicts.now }
    {
        let mut batch = Batch::none();
        for (place, entry) in entries.iter().enumerate() {
            let verdict = verdicts.get(place).unwrap();
            if verdict.is_ok() {
                batch.push(*entry);
            }
        }
        batch
    }

    // No entries yet. It is always inlined, so that the batch is made where it is kept.
    #[inline(always)]
    fn none() -> Batch
        ensures { result ≡ [] }
    {
        Batch {
            entries: [UNUSED; BATCH_LIMIT],
            count: 0,
        }
    }

    // Adds an entry.
    fn push(&mut self, entry: Entry)
        requires { length self.old < BATCH_LIMIT }
        ensures { self.new ≡ self.old ++ entry ∷ [] }
    {
        self.entries[self.count] = entry;
        self.count += 1;
    }

    /// The entries, in order.
    pub fn as_slice(&self) -> &[Entry]
        ensures value { result.now ≡ self.now }
        ensures small { length self.now ≤ BATCH_LIMIT }
    {
        &self.entries[..self.count]
    }

    /// The number of entries: at most [`BATCH_LIMIT`].
    pub fn len(&self) -> usize
        ensures value { result ≡ length self.now }
        ensures small { length self.now ≤ BATCH_LIMIT }
    {
        self.as_slice().len()
    }

    /// Whether there are none.
    pub fn is_empty(&self) -> bool
        ensures { IsTrue result ↔ (self.now ≡ []) }
    {
        self.len() == 0
    }

    /// The entries, in order.
    pub fn iter(&self) -> slice::Iter<'_, Entry>
        ensures value { iter_rest result ≡ self.now }
        ensures small { length self.now ≤ BATCH_LIMIT }
    {
        self.as_slice().iter()
    }

    /// The entry at a place, counted from 0, or None past the end.
    pub fn get(&self, place: usize) -> Option<Entry>
        ensures value { result ≡ slice_get self.now place }
        ensures small { length self.now ≤ BATCH_LIMIT }
    {
        self.entries[..self.count].get(place).copied()
    }
}

/// No entries.
impl Default for Batch {
    ghost is_default = { λ entries. entries ≡ [] };

    #[inline(always)]
    fn default() -> Batch {
        Batch::none()
    }
}

impl<'a> IntoIterator for &'a Batch {
    type Item = &'a Entry;

    type IntoIter = slice::Iter<'a, Entry>;

    ghost use Rattle.turn_ledger.specs.declared.limits.TheConstants.{BATCH_LIMIT};

    ghost into_iter_gives = { λ entries all. (iter_rest all ≡ entries.now) × (length entries.now ≤ BATCH_LIMIT) };

    fn into_iter(self) -> slice::Iter<'a, Entry> {
        self.iter()
    }
}
