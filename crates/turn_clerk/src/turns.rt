//! A turn that was taken.
ghost use Rattle.std.specs.Prelude.{◌≡◌, ◌≤◌, ◌==◌, [], length, count_by, is_ok, is_none};

use four_state::Rule;
use std::snapshot::Snapshot as Ghost;
use sweep_auditor::Move;
use turn_ledger::{BATCH_LIMIT, Batch, Entry, Verdicts};

/// A turn of a station: what its clients asked, what became of each entry, and the move that the
/// station made.
#[derive(Clone, Copy, Debug, PartialEq, Eq)]
pub struct Turn {
    /// Its place in the history since the opening, counted from 0.
    pub index: u64,
    /// The number of the station that took it; the bottom station has number 0.
    pub station: u8,
    /// The rule by which the station moved.
    pub rule: Rule,
    /// What its clients asked, in order, the refused entries too.
    pub entries: Batch,
    /// What became of each entry, in order.
    pub verdicts: Verdicts,
    /// The sequence number under which the accepted entries are journaled; `None` if there are
    /// none.
    pub posted: Option<u64>,
    pub ghost judged_each: { length verdicts ≡ length entries },
    pub ghost posted_if_accepted: { is_none posted ≡ (count_by is_ok verdicts == 0) },
}

/// A turn that was taken and stands where it is kept. Contracts see it here; the program finds no
/// byte of it.
#[derive(Drop)]
pub struct Taken {
    /// The turn, for contracts alone.
    pub turn: Ghost<Turn>,
}

impl Turn {
    ghost use Rattle.turn_clerk.specs.History.{move_of};

    // Puts into an empty turn what its clients asked and what became of it.
    #[inline]
    pub(crate) fn fill(&mut self, entries: &[Entry], verdicts: &Verdicts, posted: Option<u64>)
        requires empty { self.old.entries ≡ [] }
        requires few { length entries.now ≤ BATCH_LIMIT }
        requires judged { length verdicts.now ≡ length entries.now }
        requires posted { is_none posted ≡ (count_by is_ok verdicts.now == 0) }
        ensures index { self.new.index ≡ self.old.index }
        ensures station { self.new.station ≡ self.old.station }
        ensures rule { self.new.rule ≡ self.old.rule }
        ensures entries { self.new.entries ≡ entries.now }
        ensures verdicts { self.new.verdicts ≡ verdicts.now }
        ensures posted { self.new.posted ≡ posted }
    {
        self.entries.fill(entries);
        self.verdicts = *verdicts;
        self.posted = posted;
    }

    /// The move that the station made.
    pub fn as_move(&self) -> Move
        ensures { result ≡ move_of self.now }
    {
        Move {
            station: self.station,
            rule: self.rule,
        }
    }
}
