//! A client's side of the rings.
ghost use Rattle.std.specs.Prelude.{◌≡◌, ◌⊎◌, ◌+◌, ◌<◌, ◌≤◌, [], ◌∷◌, ◌++◌, length, IfOk, IfErr};
ghost use Rattle.std.specs.Prelude.{IfSome, IsOk, IsErr, IsSome, IsNone, OnOk};
ghost use mathlib.Core.List.{IsPrefix};
ghost use Rattle.rtrb.specs.Ring.{sent, received, known_free, known_items, producer_capacity};
ghost use Rattle.station_desk.specs.Rings.{IsFeed, StandsAt, ring_pushed, ring_popped};

use crate::messages::{Answer, Ask};
use rtrb::{Consumer, Producer, PushError};
use std::marker::Model;
use turn_ledger::Entry;

/// Where a client submits entries and collects the answers. Neither call waits or takes memory.
#[derive(Drop)]
pub struct Feed {
    pub(crate) asks: Producer<Ask>,
    pub(crate) answers: Consumer<Answer>,
    // How many requests were submitted.
    pub(crate) next: u64,
}

impl Model for Feed {
    ghost use Rattle.std.specs.Prelude.{◌≡◌, length};
    ghost use Rattle.rtrb.specs.Ring.{sent, received, known_free, known_items, producer_capacity};
    ghost use Rattle.station_desk.specs.Messages.{AreNumberedFrom};
    ghost use Rattle.station_desk.specs.Rings.{FeedState, ring_pushed, ring_popped};

    ghost Value = { FeedState };

    ghost view = { λ feed. record {
      asks = ring_pushed feed.asks;
      answers = ring_popped feed.answers;
      capacity = producer_capacity feed.asks;
      asked = sent feed.asks;
      collected = received feed.answers;
      free = known_free feed.asks;
      arrived = known_items feed.answers;
    } };

    ghost invariant = { λ feed. (feed.next ≡ length (sent feed.asks)) × AreNumberedFrom 0 (sent feed.asks) };
}

impl Feed {
    // A feed at the ends of two new rings.
    pub(crate) fn new(asks: Producer<Ask>, answers: Consumer<Answer>) -> Feed
        requires { sent asks ≡ [] }
        ensures { result ≡ record {
          asks = ring_pushed asks;
          answers = ring_popped answers;
          capacity = producer_capacity asks;
          asked = [];
          collected = received answers;
          free = known_free asks;
          arrived = known_items answers;
        } }
    {
        Feed {
            asks,
            answers,
            next: 0,
        }
    }

    /// Submits an entry, and answers its ticket: how many requests were submitted before it.
    ///
    /// # Errors
    /// The entry comes back if the ring of requests is full, or the tickets are used up: the last
    /// one is `u64::MAX` - 1. Nothing has changed then.
    pub fn submit(&mut self, entry: Entry) -> Result<u64, Entry>
        ensures rings { StandsAt self.old self.new }
        ensures ticket { IfOk result (λ ticket. ticket ≡ length self.old.asked) }
        ensures asked { IfOk result (λ ticket. self.new ≡ record self.old {
          asked = self.old.asked ++ record { ticket = ticket; entry = entry } ∷ [];
          free = self.new.free;
        }) }
        ensures no_fewer { OnOk result (self.old.free ≤ self.new.free + 1) }
        ensures back { IfErr result (λ back. (back ≡ entry) × (self.new ≡ self.old)) }
        ensures refused { IsErr result → (self.old.free ≡ 0) ⊎ (length self.old.asked ≡ u64.MAX) }
        ensures tickets_end { length self.old.asked ≡ u64.MAX → IsErr result }
        ensures succeeds { 0 < self.old.free → length self.old.asked < u64.MAX → IsOk result }
        ensures first_ones { length self.old.asked < self.old.capacity → IsOk result }
    {
        if self.next == u64::MAX {
            return Err(entry);
        }
        let ticket = self.next;
        match self.asks.push(Ask { ticket, entry }) {
            Ok(()) => {
                self.next += 1;
                Ok(ticket)
            }
            Err(PushError::Full(ask)) => Err(ask.entry),
        }
    }

    /// Collects the oldest answer that wasn't collected yet, or None if there is none.
    pub fn answer(&mut self) -> Option<Answer>
        ensures rings { StandsAt self.old self.new }
        ensures collected { IfSome result (λ answer. self.new ≡ record self.old {
          collected = self.old.collected ++ answer ∷ [];
          arrived = self.new.arrived;
        }) }
        ensures oldest { IfSome result (λ answer.
            IsPrefix self.old.arrived (answer ∷ self.new.arrived)) }
        ensures none { IsNone result → (self.new ≡ self.old) × (self.old.arrived ≡ []) }
        ensures succeeds { 0 < length self.old.arrived → IsSome result }
    {
        self.answers.pop().ok()
    }

    /// What every feed keeps: tickets count from 0, and the places of its ring that were never used
    /// are free.
    pub fn tickets_in_order(&self)
        ensures { IsFeed self.now }
    {
        let _ = &self.asks;
    }
}
