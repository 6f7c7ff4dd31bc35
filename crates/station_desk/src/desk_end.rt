//! A station's side of the rings.
ghost use Rattle.std.specs.Prelude.{◌≡◌, ◌-◌, ◌≤◌, [], ◌++◌, length, ⊤};
ghost use Rattle.std.specs.List.{All};
ghost use Rattle.std.specs.Borrow.{sem};
ghost use mathlib.Core.Option.{none};
ghost use denote.Follow.{follows_so};
ghost use Rattle.rtrb.specs.Ring.{sent, received, known_free, known_items};
ghost use Rattle.station_desk.specs.Messages.{entries_of, answers_to};
ghost use Rattle.station_desk.specs.Rings.{IsDesk, HasGathered, ring_pushed, ring_popped};
ghost use Rattle.station_desk.specs.Outcomes.{outcomes_of, undecided, IsDecided};

use crate::giving::{give, give_undecided, take};
use crate::held::HeldAsks;
use crate::messages::{Answer, Ask};
use rtrb::{Consumer, Producer};
use std::marker::Model;
use turn_clerk::Turn;
use turn_ledger::{BATCH_LIMIT, Entry};

/// Where a station takes requests and gives the answers. None of its calls waits or takes memory.
#[derive(Drop)]
pub struct Desk {
    pub(crate) asks: Consumer<Ask>,
    pub(crate) answers: Producer<Answer>,
    pub(crate) held: HeldAsks,
}

impl Model for Desk {
    ghost use Rattle.std.specs.Prelude.{◌≡◌, ◌≤◌, ◌++◌, length};
    ghost use Rattle.rtrb.specs.Ring.{sent, received, known_free, known_items};
    ghost use Rattle.turn_ledger.specs.declared.limits.TheConstants.{BATCH_LIMIT};
    ghost use Rattle.station_desk.specs.Messages.{asks_of};
    ghost use Rattle.station_desk.specs.Rings.{DeskState, ring_pushed, ring_popped};

    ghost Value = { DeskState };

    ghost view = { λ desk. record {
      asks = ring_popped desk.asks;
      answers = ring_pushed desk.answers;
      taken = received desk.asks;
      given = sent desk.answers;
      held = desk.held;
      free = known_free desk.answers;
      waiting = known_items desk.asks;
    } };

    ghost invariant = { λ desk. (received desk.asks ≡ asks_of (sent desk.answers) ++ desk.held)
        × (length desk.held ≤ BATCH_LIMIT) × (length desk.held ≤ known_free desk.answers) };
}

impl Desk {
    ghost use Rattle.station_desk.specs.contracts.desk_end.Desk.{the_row};

    // A desk at the ends of two new rings, which holds nothing.
    pub(crate) fn new(asks: Consumer<Ask>, answers: Producer<Answer>, held: HeldAsks) -> Desk
        requires { (received asks ≡ []) × (sent answers ≡ []) × (held ≡ []) }
        ensures { result ≡ record {
          asks = ring_popped asks;
          answers = ring_pushed answers;
          taken = [];
          given = [];
          held = [];
          free = known_free answers;
          waiting = known_items asks;
        } }
    {
        Desk {
            asks,
            answers,
            held,
        }
    }

    /// Takes requests until as many are held as a turn takes, or as there are free places for
    /// answers, or no other request is there; and lends the entries of all that is held, in order.
    pub fn gather(&mut self) -> &[Entry]
        ensures* gathered { sem 𝓛 (follows_so the_row the_row self.entry.ghost_name none (λ _ _. ⊤)
            (λ new. HasGathered self.old new × (result.now ≡ entries_of new.held))) }
    {
        self.take_waiting();
        self.held.entries()
    }

    // The taking of `gather`.
    fn take_waiting(&mut self)
        ensures { HasGathered self.old self.new }
    {
        let room = self.answers.slots().min(BATCH_LIMIT);
        take(&mut self.asks, &mut self.held, room);
    }

    /// Answers each request that is held, in order, by a turn that took their entries: an accepted
    /// one is told the number that the turn posted under, a refused one its refusal. Nothing is
    /// held afterwards.
    pub fn settle(&mut self, turn: &Turn)
        requires { turn.now.entries ≡ entries_of self.old.held }
        ensures answered { self.new ≡ record self.old {
          given = self.old.given ++ answers_to self.old.held (outcomes_of turn.now);
          held = [];
          free = self.old.free - length self.old.held;
        } }
        ensures decided { All IsDecided (outcomes_of turn.now) }
    {
        give(&mut self.answers, self.held.asks(), turn);
        self.held.clear();
    }

    /// Answers each request that is held, in order, that it is undecided. Nothing is held
    /// afterwards.
    pub fn give_up(&mut self)
        ensures { self.new ≡ record self.old {
          given = self.old.given ++ answers_to self.old.held (undecided self.old.held);
          held = [];
          free = self.old.free - length self.old.held;
        } }
    {
        give_undecided(&mut self.answers, self.held.asks());
        self.held.clear();
    }

    /// What every desk keeps: each request that it took has its answer, in order, or is held; it
    /// holds no more than a turn takes, and no more than it can answer.
    pub fn answered_or_held(&self)
        ensures { IsDesk self.now }
    {
        let _ = &self.held;
    }
}
