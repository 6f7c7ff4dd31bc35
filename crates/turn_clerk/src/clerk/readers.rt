//! What a clerk tells of itself.
ghost use Rattle.std.specs.Prelude.{◌≡◌, ◌+◌, false, SomeIff};
ghost use Rattle.sweep_auditor.specs.Run.{IsRun};
ghost use Rattle.turn_ledger.specs.State.{IsAccount, balance_of, mark_of};
ghost use Rattle.turn_clerk.specs.History.{moves_of};
ghost use Rattle.turn_clerk.specs.Clerk.{KeepsHistory};

use super::Clerk;
use crate::turns::Turn;
use four_state::Line;
use sector_device::Device;
use std::fmt;
use sweep_auditor::Move;
use turn_ledger::{Batch, Ledger};

impl<D: Device> Clerk<D> {
    /// The turns since the opening, in order.
    pub fn history(&self) -> &[Turn]
        ensures value { result.now ≡ self.now.history }
        ensures legal { KeepsHistory self.now }
    {
        self.history.as_slice()
    }

    /// The moves since the opening, in order.
    pub fn moves(&self) -> &[Move]
        ensures value { result.now ≡ moves_of self.now.history }
        ensures run { IsRun self.now.opening.line (moves_of self.now.history) }
    {
        self.moves.as_slice()
    }

    /// The line that was handed in at the opening.
    pub fn opening(&self) -> Line
        ensures { result ≡ self.now.opening.line }
    {
        self.opening_line
    }

    /// What an account held at the opening, or None if there is no account of this number.
    pub fn opening_balance(&self, account: u32) -> Option<u64>
        ensures { SomeIff result (IsAccount account) (balance_of self.now.opening.ledger account) }
    {
        self.opening_ledger.balance(account)
    }

    /// Whether an account was sealed at the opening, or None if there is no account of this number.
    pub fn opening_sealed(&self, account: u32) -> Option<bool>
        ensures { SomeIff result (IsAccount account) (mark_of self.now.opening.ledger account) }
    {
        self.opening_ledger.is_sealed(account)
    }

    /// The sequence number that was the next one at the opening.
    pub fn opening_next(&self) -> u64
        ensures { result ≡ self.now.opening.journal.next }
    {
        self.opening_next
    }

    /// The line as it stands.
    pub fn line(&self) -> Line
        ensures { result ≡ self.now.line }
    {
        self.line
    }

    /// The ledger as it stands.
    pub fn ledger(&self) -> &Ledger
        ensures { result.now ≡ self.now.ledger }
    {
        &self.ledger
    }

    /// The accepted entries of the turn that ended by a fault of the device, which may stand or
    /// not.
    pub fn in_flight(&self) -> Option<Batch>
        ensures value { result ≡ self.now.in_flight }
        ensures only_faulted { self.now.journal.faulted ≡ false → result ≡ None }
    {
        self.in_flight
    }

    /// The station of that turn, if there is one.
    pub fn in_flight_station(&self) -> u8
        ensures { result ≡ self.now.in_flight_by }
    {
        self.in_flight_station
    }

    /// The sequence number of the next record.
    pub fn next(&self) -> u64
        ensures { result ≡ self.now.journal.next }
    {
        self.journal.next()
    }

    /// How many slots each bank has.
    pub fn slots(&self) -> u64
        ensures { result ≡ self.now.journal.slots }
    {
        self.journal.slots()
    }

    /// How many slots of the live bank are free.
    pub fn room(&self) -> u64
        ensures { self.now.journal.next + result
            ≡ self.now.journal.live.base + self.now.journal.slots }
    {
        self.journal.room()
    }

    /// Whether a device fault was met, so that every turn is refused until the device is opened
    /// again.
    pub fn is_faulted(&self) -> bool
        ensures { result ≡ self.now.journal.faulted }
    {
        self.journal.is_faulted()
    }
}

/// What the clerk tells of itself, with its ledger's total and the number of its turns, and nothing
/// of its device.
impl<D: Device> fmt::Debug for Clerk<D> {
    fn fmt<W: fmt::Write>(&self, f: &mut fmt::Formatter<W>) -> fmt::Result {
        f.debug_struct("Clerk")
            .field("line", &self.line())
            .field("total", &self.ledger().total())
            .field("next", &self.next())
            .field("turns", &self.history().len())
            .field("is_faulted", &self.is_faulted())
            .finish_non_exhaustive()
    }
}
