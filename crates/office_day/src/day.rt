//! A whole day.
ghost use Rattle.std.specs.Prelude.{◌≡◌, ◌≢◌, ◌⊎◌, ◌-◌, ◌≤◌, length, IfOk, IfErr};
ghost use Rattle.sector_device.specs.Device.{AreCalls};
ghost use Rattle.sector_device.specs.Crash.{OnlyLooks, IsDurable};
ghost use Rattle.four_state.specs.Configuration.{stations};
ghost use Rattle.sweep_auditor.specs.Run.{IsRun};
ghost use Rattle.sweep_auditor.specs.Audited.{IsAuditOf};
ghost use Rattle.turn_clerk.specs.Clerk.{KeepsHistory, LeavesAcknowledged, LeftPrefixEver};
ghost use Rattle.turn_clerk.specs.FarBack.{LeftRecordsEver};
ghost use Rattle.turn_clerk.specs.History.{moves_of};
ghost use Rattle.journal_recovery.specs.Refused.{RecoveryRefuses};
ghost use Rattle.line_lock.specs.OpenedOn.{WasOpenedOn, WasLeftByClerk};
ghost use Rattle.line_lock.specs.Account.{failed_turns};
ghost use Rattle.office_day.specs.Day.{HadTheirDay, failures_told};
ghost use Rattle.office_day.specs.Refusal.{IfOpening, UnlessOpening, day_refusal};

use crate::handing_in::hand_in_all;
use crate::held_entries::HeldEntries;
use crate::office_run::run_office;
use crate::reconciled::{StationDay, all_reconciled};
use crate::refusals::DayRefusal;
use four_state::Line;
use journal_recovery::OpenRefusal;
use line_lock::{Closing, OfficeRefusal};
use sector_device::Device;
use station_desk::Gate;
use std::alloc::{AllocError, Global};
use std::sync::Wait;
use std::thread::Threads;
use sweep_auditor::Audit;
use turn_clerk::Clerk;

/// A day that is over: the clerk of the closed office, the audit of its opening line and all its
/// moves, and what became of each station's requests, station 0 first.
#[derive(Drop)]
#[derive_where(Debug)]
pub struct Day<D: Device> {
    /// The clerk of the closed office, with the day's history.
    pub clerk: Clerk<D>,
    /// From which turn on one station alone was privileged, and the last line.
    pub audit: Audit,
    /// What became of each station's requests.
    pub stations: Vec<StationDay>,
}

// Nobody looks on.
struct NobodyLooks;

impl Gate for NobodyLooks {
    ghost closes = { λ _. ⊥ };

    fn gathered(&self, _station: u8) {}

    fn answered(&self, _station: u8) {}
}

/// Opens an office on the device, with this line, and hands each station what it holds, the lowest
/// station first. The stations take turns, each in a thread of its own, until `moves` turns are
/// taken; one that isn't privileged tries again, at most `tries` times in a row. Then the office is
/// closed. The call may wait.
///
/// # Errors
/// The device comes back. [`DayRefusal::Opening`]: it can't be opened, for another reason than out
/// of memory; nobody took a turn. [`DayRefusal::Memory`]: turns may have been taken; the device is
/// as a clerk that took turns on it left it, with their batches. [`DayRefusal::Closing`]: the same;
/// an office whose seats are its own never answers it.
pub fn run_day<D: Device + Send, R: Threads + Wait + Sync>(
    rt: &R,
    alloc: Global,
    device: D,
    line: Line,
    held: &[HeldEntries],
    moves: u64,
    tries: u64,
) -> Result<Day<D>, (D, DayRefusal)>
    requires held { length held.now ≡ stations line }

    // What became of what the stations held.
    ensures days { IfOk result (λ day.
        HadTheirDay day.clerk moves held.now day.stations.items) }
    ensures within { IfOk result (λ day. length day.clerk.history ≤ moves) }
    ensures failed { IfOk result (λ day.
        failures_told day.stations.items ≡ failed_turns day.clerk) }

    // The clerk, over its whole life.
    ensures stations { IfOk result (λ day. stations day.clerk.line ≡ stations line) }
    ensures opened { IfOk result (λ day. WasOpenedOn D.state (D.state device) line day.clerk) }
    ensures legal { IfOk result (λ day. KeepsHistory day.clerk) }
    ensures run { IfOk result (λ day. IsRun day.clerk.opening.line (moves_of day.clerk.history)) }
    ensures acknowledged { IfOk result (λ day.
        (D.state day.clerk.journal.device).honest → LeavesAcknowledged D.state day.clerk) }
    ensures at_any_moment { IfOk result (λ day.
        (D.state day.clerk.journal.device).honest → LeftPrefixEver D.state day.clerk) }
    ensures in_sight { IfOk result (λ day.
        (D.state day.clerk.journal.device).honest → LeftRecordsEver D.state day.clerk) }

    // The audit of its opening line and all its moves.
    ensures last { IfOk result (λ day. day.audit.last ≡ day.clerk.line) }
    ensures audit { IfOk result (λ day.
        IsAuditOf day.clerk.opening.line (moves_of day.clerk.history) day.audit) }

    // What a day that isn't told leaves.
    ensures left { IfErr result (λ e.
        UnlessOpening e.1 ((e.0 ≡ device) ⊎ WasLeftByClerk D.state (D.state device) line e.0)) }

    // A refused opening.
    ensures call { IfErr result (λ e. IfOpening e.1 (λ refusal.
        AreCalls (D.state device) (D.state e.0) (refusal ≡ OpenRefusal.Device))) }
    ensures looks { (D.state device).honest
        → IfErr result (λ e. IfOpening e.1 (λ _. OnlyLooks (D.state device) (D.state e.0))) }
    ensures settled { (D.state device).honest → IfErr result (λ e. IfOpening e.1 (λ refusal.
        refusal ≢ OpenRefusal.Device → IsDurable (D.state e.0))) }
    ensures refused { (D.state device).honest → IfErr result (λ e. IfOpening e.1 (λ refusal.
        refusal ≢ OpenRefusal.Device → RecoveryRefuses (D.state device).reads refusal)) }
    ensures not_memory { IfErr result (λ e. e.1 ≢ DayRefusal.Opening OpenRefusal.Memory) }
{
    let Ok((feeds, desks)) = hand_in_all(alloc, held) else {
        return Err((device, DayRefusal::Memory));
    };
    let run = run_office(rt, alloc, device, line, desks, &NobodyLooks, moves, tries);
    let (closing, left) = match run {
        Ok(run) => run,
        Err((device, refusal)) => return Err((device, of_office(refusal))),
    };
    let Closing { clerk, audit } = closing;
    match all_reconciled(alloc, feeds, left) {
        Ok(stations) => Ok(Day {
            clerk,
            audit,
            stations,
        }),
        Err(_) => Err((clerk.into_device(), DayRefusal::Memory)),
    }
}

// Why there was no day, where its office wasn't opened, worked in and closed.
fn of_office(refusal: OfficeRefusal<AllocError>) -> DayRefusal
    ensures { result ≡ day_refusal refusal }
{
    match refusal {
        OfficeRefusal::Opening(OpenRefusal::Memory) | OfficeRefusal::Work(_) => DayRefusal::Memory,
        OfficeRefusal::Opening(refusal) => DayRefusal::Opening(refusal),
        OfficeRefusal::Closing(refusal) => DayRefusal::Closing(refusal),
    }
}
