//! The verdicts of the entries of one turn.
ghost use Rattle.std.specs.Prelude.{◌≡◌, ◌↔◌, ◌≤◌, ◌<◌, [], ◌∷◌, ◌++◌, length, slice_get, IsTrue};
ghost use Rattle.std.specs.Prelude.{count_by, is_ok};
ghost use Rattle.std.specs.Slice.Iter.{iter_rest};

use crate::{BATCH_LIMIT, EntryRefusal};
use std::marker::Model;
use std::slice;

/// What stands at an unused place. No call shows it.
const UNUSED: Result<(), EntryRefusal> = Ok(());

/// At most [`BATCH_LIMIT`] verdicts in order, which lie in the value itself.
#[derive(Clone, Copy, Debug, PartialEq, Eq, Hash)]
pub struct Verdicts {
    verdicts: [Result<(), EntryRefusal>; BATCH_LIMIT],
    count: usize,
}

impl Model for Verdicts {
    ghost use Rattle.std.specs.Prelude.{List, Result, length, take};
    ghost use Rattle.turn_ledger.specs.declared.refusal.EntryRefusal.{EntryRefusal};
    ghost use Rattle.turn_ledger.specs.InPlace.{IsFilled, filled, filled-take};
    ghost use Rattle.turn_ledger.specs.declared.verdicts.TheConstants.{UNUSED};

    ghost Value = { List (Result (Unit {0}) EntryRefusal) };

    ghost view = { λ list. take list.count list.verdicts };

    ghost invariant = { λ list. IsFilled UNUSED list.verdicts list.count };

    ghost inverse = { λ verdicts. record { verdicts = filled UNUSED verdicts; count = length verdicts } };

    ghost inverse_ok = { λ list h i. record {
      verdicts = (filled-take UNUSED list.verdicts list.count h).0 i;
      count = (filled-take UNUSED list.verdicts list.count h).1 i;
    } };
}

impl Verdicts {
    /// No verdicts yet.
    pub(crate) fn none() -> Verdicts
        ensures { result ≡ [] }
    {
        Verdicts {
            verdicts: [UNUSED; BATCH_LIMIT],
            count: 0,
        }
    }

    /// Adds the verdict of the next entry.
    #[inline]
    pub(crate) fn push(&mut self, verdict: Result<(), EntryRefusal>)
        requires { length self.old < BATCH_LIMIT }
        ensures { self.new ≡ self.old ++ verdict ∷ [] }
    {
        self.verdicts[self.count] = verdict;
        self.count += 1;
    }

    /// The number of verdicts: at most [`BATCH_LIMIT`].
    pub fn len(&self) -> usize
        ensures value { result ≡ length self.now }
        ensures small { length self.now ≤ BATCH_LIMIT }
    {
        self.count
    }

    /// Whether there are none.
    pub fn is_empty(&self) -> bool
        ensures { IsTrue result ↔ (self.now ≡ []) }
    {
        self.len() == 0
    }

    /// The verdicts, in order.
    pub fn iter(&self) -> slice::Iter<'_, Result<(), EntryRefusal>>
        ensures value { iter_rest result ≡ self.now }
        ensures small { length self.now ≤ BATCH_LIMIT }
    {
        self.verdicts[..self.count].iter()
    }

    /// The verdict at a place, counted from 0, or None past the end.
    pub fn get(&self, place: usize) -> Option<Result<(), EntryRefusal>>
        ensures value { result ≡ slice_get self.now place }
        ensures small { length self.now ≤ BATCH_LIMIT }
    {
        self.verdicts[..self.count].get(place).copied()
    }

    /// How many entries are accepted.
    pub fn accepted(&self) -> u8
        ensures value { result ≡ count_by is_ok self.now }
        ensures small { length self.now ≤ BATCH_LIMIT }
    {
        count_ok(&self.verdicts[..self.count])
    }
}

/// No verdicts.
impl Default for Verdicts {
    ghost is_default = { λ verdicts. verdicts ≡ [] };

    fn default() -> Verdicts {
        Verdicts::none()
    }
}

impl<'a> IntoIterator for &'a Verdicts {
    type Item = &'a Result<(), EntryRefusal>;

    type IntoIter = slice::Iter<'a, Result<(), EntryRefusal>>;

    ghost use Rattle.turn_ledger.specs.declared.limits.TheConstants.{BATCH_LIMIT};

    ghost into_iter_gives = { λ verdicts all. (iter_rest all ≡ verdicts.now) × (length verdicts.now ≤ BATCH_LIMIT) };

    fn into_iter(self) -> slice::Iter<'a, Result<(), EntryRefusal>> {
        self.iter()
    }
}

/// How many entries were accepted.
#[inline]
fn count_ok(verdicts: &[Result<(), EntryRefusal>]) -> u8
    requires { length verdicts.now ≤ BATCH_LIMIT }
    ensures { result ≡ count_by is_ok verdicts.now }
{
    verdicts.iter().filter(|verdict| verdict.is_ok()).count() as u8
}
