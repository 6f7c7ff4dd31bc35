//! The requests that a desk holds.
ghost use Rattle.std.specs.Prelude.{◌≡◌, ◌≤◌, ◌<◌, [], ◌∷◌, ◌++◌, length, vec_capacity, IfOk};
ghost use Rattle.station_desk.specs.Messages.{entries_of};

use crate::messages::Ask;
use std::alloc::{AllocError, Global};
use std::marker::Model;
use turn_ledger::{BATCH_LIMIT, Entry};

/// At most [`BATCH_LIMIT`] requests in order, and their entries once more, side by side: a turn
/// takes them as a slice.
#[derive(Drop)]
pub(crate) struct HeldAsks {
    asks: Vec<Ask>,
    entries: Vec<Entry>,
}

impl Model for HeldAsks {
    ghost use Rattle.std.specs.Prelude.{◌≡◌, ◌≤◌, List, vec_capacity};
    ghost use Rattle.turn_ledger.specs.declared.limits.TheConstants.{BATCH_LIMIT};
    ghost use Rattle.station_desk.specs.declared.messages.Ask.{Ask};
    ghost use Rattle.station_desk.specs.Messages.{entries_of};

    ghost Value = { List Ask };

    ghost view = { λ held. held.asks.items };

    ghost invariant = { λ held. (held.entries.items ≡ entries_of held.asks.items)
        × (BATCH_LIMIT ≤ vec_capacity held.asks) × (BATCH_LIMIT ≤ vec_capacity held.entries) };
}

impl HeldAsks {
    // Nothing held, and places for as many requests as a turn takes.
    pub(crate) fn new(alloc: Global) -> Result<HeldAsks, AllocError>
        ensures { IfOk result (λ held. held ≡ []) }
    {
        let asks = Vec::with_capacity(alloc, BATCH_LIMIT)?;
        let entries = Vec::with_capacity(alloc, BATCH_LIMIT)?;
        Ok(HeldAsks { asks, entries })
    }

    pub(crate) fn push(&mut self, ask: Ask)
        requires { length self.old < BATCH_LIMIT }
        ensures { self.new ≡ self.old ++ ask ∷ [] }
    {
        self.asks.push_reserved(ask);
        self.entries.push_reserved(ask.entry);
    }

    pub(crate) fn len(&self) -> usize
        ensures { result ≡ length self.now }
    {
        self.asks.len()
    }

    pub(crate) fn asks(&self) -> &[Ask]
        ensures { result.now ≡ self.now }
    {
        self.asks.as_slice()
    }

    pub(crate) fn entries(&self) -> &[Entry]
        ensures { result.now ≡ entries_of self.now }
    {
        self.entries.as_slice()
    }

    pub(crate) fn clear(&mut self)
        ensures { self.new ≡ [] }
    {
        self.asks.clear();
        self.entries.clear();
    }
}
