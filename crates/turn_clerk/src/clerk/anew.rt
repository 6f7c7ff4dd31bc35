//! A clerk whose journal is lent, and one that begins anew without reading it.
ghost use Rattle.std.specs.Prelude.{◌≡◌, ◌↔◌, IsTrue, IsErr, IfOk, IfErr};
ghost use Rattle.sector_device.specs.Crash.{IsDurable, WasLookedAt};
ghost use Rattle.journal_recovery.specs.Recovery.{RecoversTo};
ghost use Rattle.turn_clerk.specs.Clerk.{present_state};
ghost use Rattle.turn_clerk.specs.Found.{after_looks};
ghost use Rattle.turn_clerk.specs.Opened.{IsOpened, begun_anew};

use super::Clerk;
use crate::past::Past;
use four_state::Line;
use gate_journal::{Borrower, one_reading};
use sector_device::Device;
use std::snapshot::Snapshot as Ghost;

impl<D: Device> Clerk<D> {
    /// Lends the journal to whoever only reads it. The clerk goes on as it was.
    pub fn lend<B: Borrower>(self, borrower: &mut B) -> Clerk<D>
        ensures kept { result ≡ after_looks self result.journal.device }
        ensures looked { WasLookedAt (D.state self.journal.device) (D.state result.journal.device) }
        ensures changed { B.changes borrower.old borrower.new }
        ensures learned { (D.state self.journal.device).honest
            → B.learns (D.state self.journal.device).reads borrower.old borrower.new }
    {
        Clerk {
            journal: self.journal.lend(borrower),
            ..self
        }
    }

    /// Begins anew on that line, with its journal and its ledger as they stand: it is as one that
    /// was just opened here, and has no history. It makes no device call and takes no memory.
    ///
    /// # Errors
    /// The clerk has met a fault of its device, and comes back as it was.
    pub fn begin_anew(self, line: Line) -> Result<Clerk<D>, Clerk<D>>
        ensures faulted { IsErr result ↔ IsTrue self.journal.faulted }
        ensures back { IfErr result (λ clerk. clerk ≡ self) }
        ensures anew { IfOk result (λ clerk. clerk ≡ begun_anew self line) }
        ensures opened { IfOk result (IsOpened line) }

        // On an honest device.
        ensures settled { (D.state self.journal.device).honest
            → IfOk result (λ clerk. IsDurable (D.state clerk.journal.device)) }
        ensures recovers { (D.state self.journal.device).honest
            → IfOk result (λ clerk.
            RecoversTo (present_state clerk) (D.state self.journal.device).reads) }
    {
        if self.is_faulted() {
            return Err(self);
        }
        // for the contract alone: an image has one reading
        one_reading();
        let mut clerk = self;
        clerk.opening_ledger.copy_from(&clerk.ledger);
        clerk.opening_line = line;
        clerk.line = line;
        clerk.opening_next = clerk.journal.next();
        clerk.opening_journal = Ghost::of(&clerk.journal);
        clerk.history.clear();
        clerk.moves.clear();
        clerk.acknowledged = Past::Nothing;
        clerk.in_flight = None;
        clerk.in_flight_station = 0;
        Ok(clerk)
    }
}
