//! A station's seat.
ghost use Rattle.std.specs.Prelude.{◌≡◌, ◌<◌, ◌↔◌, IsTrue};
ghost use Rattle.line_lock.specs.Seat.{new_seat};

use crate::told::ToldBalance;
use std::alloc::Global;
use std::marker::Model;
use std::sync::ledger::{Ledger as Count, Share};
use turn_clerk::Turn;
use turn_ledger::Batch;

/// A station's right to take turns, and an account of those that it took. Each turn that its
/// station takes, and each in which the device fails, is counted in the office's book by the seat's
/// share, which no one else has. `L` names the book: a seat of another office has another type, and
/// a list with it is refused by the compiler (`mismatched-types`).
#[derive(Drop)]
pub struct Seat<L: Count> {
    pub(crate) station: u8,
    pub(crate) turns: Vec<Turn>,
    pub(crate) denied: Option<u64>,
    pub(crate) reached: u64,
    pub(crate) told: Option<ToldBalance>,
    pub(crate) faulted: bool,
    pub(crate) undecided: Option<Batch>,
    pub(crate) share: Share<L>,
}

impl<L: Count> Model for Seat<L> {
    ghost use Rattle.std.specs.Prelude.{◌≡◌, ◌-◌, ◌<◌, ◌≤◌, length, vec_len, vec_capacity};
    ghost use Rattle.line_lock.specs.Seat.{SeatState};

    ghost Value = { SeatState };

    ghost view = { λ s. record {
      station = s.station;
      turns = s.turns.items;
      denied = s.denied;
      reached = s.reached;
      failed = s.share.amount - length s.turns.items;
      told = s.told;
      faulted = s.faulted;
      undecided = s.undecided;
      room = vec_capacity s.turns - vec_len s.turns;
    } };

    ghost invariant = { λ s. (s.station < L.parts) × (s.share.parts ≡ 1)
        × (length s.turns.items ≤ s.share.amount) };
}

impl<L: Count> Seat<L> {
    // The seat of a station that has taken no turn, with its share of the book.
    pub(crate) fn new(alloc: Global, station: u8, share: Share<L>) -> Seat<L>
        requires station { station < L.parts }
        requires share { (share.parts ≡ 1) × (share.amount ≡ 0) }
        ensures { result ≡ new_seat station }
    {
        Seat {
            station,
            turns: Vec::new(alloc),
            denied: None,
            reached: 0,
            told: None,
            faulted: false,
            undecided: None,
            share,
        }
    }

    /// The number of its station, which is one of the office's.
    pub fn station(&self) -> u8
        ensures value { result ≡ self.now.station }
        ensures there { result < L.parts }
    {
        self.station
    }

    /// The turns that its station took, in order.
    pub fn turns(&self) -> &[Turn]
        ensures { result.now ≡ self.now.turns }
    {
        self.turns.as_slice()
    }

    /// How many turns the office's history held when the seat was last answered
    /// [`turn_clerk::TurnRefusal::NotPrivileged`].
    pub fn denied(&self) -> Option<u64>
        ensures { result ≡ self.now.denied }
    {
        self.denied
    }

    /// The greatest limit that the seat was answered [`crate::WithinRefusal::Reached`] for: the
    /// office's history held as many turns then; 0 if it never was.
    pub fn reached(&self) -> u64
        ensures { result ≡ self.now.reached }
    {
        self.reached
    }

    /// The last balance that the seat was told, with how many turns the office's history held then.
    pub fn told(&self) -> Option<ToldBalance>
        ensures { result ≡ self.now.told }
    {
        self.told
    }

    /// Whether the seat was ever answered `Faulted`: by a turn, a balance or a search.
    pub fn was_faulted(&self) -> bool
        ensures { result ≡ self.now.faulted }
    {
        self.faulted
    }

    // Whether its list has a place for a turn more, which is reserved where there is none.
    pub(crate) fn has_place(&mut self) -> bool
        ensures place { IsTrue result ↔ (0 < self.new.room) }
        ensures same { self.new ≡ record self.old { room = self.new.room } }
    {
        let Seat { turns, .. } = self;
        turns.len() < turns.capacity() || turns.reserve(1).is_ok()
    }
}
