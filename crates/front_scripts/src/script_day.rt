//! A day of the stations, from a script.
ghost use Rattle.std.specs.Prelude.{◌≡◌, ◌≢◌, ◌⊎◌, ◌<◌, ◌≤◌, ℕ, length, IfOk, IfErr};
ghost use Rattle.std.specs.Prelude.{slice_index_or};
ghost use Rattle.sector_device.specs.Device.{AreCalls};
ghost use Rattle.sector_device.specs.Crash.{OnlyLooks, IsDurable};
ghost use Rattle.four_state.specs.Configuration.{stations};
ghost use Rattle.sweep_auditor.specs.Run.{IsRun};
ghost use Rattle.sweep_auditor.specs.Audited.{IsAuditOf};
ghost use Rattle.turn_clerk.specs.Clerk.{KeepsHistory, LeavesAcknowledged, LeftPrefixEver};
ghost use Rattle.turn_clerk.specs.FarBack.{LeftRecordsEver};
ghost use Rattle.turn_clerk.specs.History.{moves_of};
ghost use Rattle.journal_recovery.specs.Refused.{RecoveryRefuses};
ghost use Rattle.line_lock.specs.OpenedOn.{WasOpenedOn, WasLeftByClerk};
ghost use Rattle.line_lock.specs.Account.{failed_turns};
ghost use Rattle.office_day.specs.Day.{HadTheirDay, failures_told};
ghost use Rattle.office_day.specs.Refusal.{IfOpening, UnlessOpening};
ghost use Rattle.front_scripts.specs.Day.{unanswered_of, told_as};
ghost use Rattle.front_scripts.specs.Clerk.{held_for};
ghost use Rattle.office_day.specs.declared.reconciled.StationDay.{StationDay};

use crate::faults::ScriptFault;
use crate::refusals::Refusal;
use crate::scripted_clerk::ScriptedClerk;
use journal_recovery::OpenRefusal;
use office_day::{Day, DayRefusal, HeldEntries, StationDay, run_day};
use sector_device::Device;
use std::alloc::Global;
use std::sync::Wait;
use std::thread::Threads;
use sweep_auditor::Audit;

/// How often in a row a station is refused its turn in a day, before it ends.
pub const DAY_TRIES: u64 = 100_000_000;

/// This number, as a statement; the body does nothing.
pub fn day_tries_in_numbers()
    ensures { DAY_TRIES ≡ 100000000 }
{}

/// What a day shows besides its turns.
#[derive(Drop)]
pub struct DayReport {
    /// From which turn on one station alone was privileged.
    pub audit: Audit,
    /// What became of each station's requests, the lowest station first.
    pub stations: Vec<StationDay>,
}

impl<D: Device + Send + Drop> ScriptedClerk<D> {
    /// Lets the stations take so many turns, each in a thread of its own, with what is held for
    /// them. What has no answer then is held again. If there is no day to show, there is no office
    /// any more either, and the device is handed back.
    pub fn day<R: Threads + Wait + Sync>(
        self,
        rt: &R,
        alloc: Global,
        moves: u64,
    ) -> Result<(ScriptedClerk<D>, DayReport), (D, DayRefusal)>
        // What is held afterwards, and what became of what was held.
        ensures held { IfOk result (λ day. day.0.held ≡ unanswered_of day.1.stations.items) }
        ensures days { IfOk result (λ day.
            HadTheirDay day.0.clerk moves self.held day.1.stations.items) }
        ensures within { IfOk result (λ day. length day.0.clerk.history ≤ moves) }
        ensures failed { IfOk result (λ day.
            failures_told day.1.stations.items ≡ failed_turns day.0.clerk) }

        // The clerk, which was opened on the device and the line of the one before.
        ensures opened { IfOk result (λ day. WasOpenedOn D.state
            (D.state self.clerk.journal.device) self.clerk.line day.0.clerk) }
        ensures stations { IfOk result (λ day.
            stations day.0.clerk.line ≡ stations self.clerk.line) }
        ensures legal { IfOk result (λ day. KeepsHistory day.0.clerk) }
        ensures run { IfOk result (λ day.
            IsRun day.0.clerk.opening.line (moves_of day.0.clerk.history)) }
        ensures acknowledged { IfOk result (λ day.
            (D.state day.0.clerk.journal.device).honest → LeavesAcknowledged D.state day.0.clerk) }
        ensures at_any_moment { IfOk result (λ day.
            (D.state day.0.clerk.journal.device).honest → LeftPrefixEver D.state day.0.clerk) }
        ensures in_sight { IfOk result (λ day.
            (D.state day.0.clerk.journal.device).honest → LeftRecordsEver D.state day.0.clerk) }

        // The audit of its opening line and all its moves.
        ensures last { IfOk result (λ day. day.1.audit.last ≡ day.0.clerk.line) }
        ensures audit { IfOk result (λ day.
            IsAuditOf day.0.clerk.opening.line (moves_of day.0.clerk.history) day.1.audit) }

        // Where there is no day.
        ensures left { IfErr result (λ e. UnlessOpening e.1
            ((e.0 ≡ self.clerk.journal.device) ⊎ WasLeftByClerk D.state
            (D.state self.clerk.journal.device) self.clerk.line e.0)) }
        ensures call { IfErr result (λ e. IfOpening e.1 (λ refusal.
            AreCalls (D.state self.clerk.journal.device) (D.state e.0)
            (refusal ≡ OpenRefusal.Device))) }
        ensures looks { (D.state self.clerk.journal.device).honest
            → IfErr result (λ e. IfOpening e.1 (λ _.
            OnlyLooks (D.state self.clerk.journal.device) (D.state e.0))) }
        ensures settled { (D.state self.clerk.journal.device).honest
            → IfErr result (λ e. IfOpening e.1 (λ refusal.
            refusal ≢ OpenRefusal.Device → IsDurable (D.state e.0))) }
        ensures refused { (D.state self.clerk.journal.device).honest
            → IfErr result (λ e. IfOpening e.1 (λ refusal. refusal ≢ OpenRefusal.Device
            → RecoveryRefuses (D.state self.clerk.journal.device).reads refusal)) }
        ensures not_memory { IfErr result (λ e. e.1 ≢ DayRefusal.Opening OpenRefusal.Memory) }
    {
        let ScriptedClerk { clerk, mut held } = self;
        let line = clerk.line();
        let device = Box::into_inner(clerk).into_device();
        let entries = held.as_slice();
        match run_day(rt, alloc, device, line, entries, moves, DAY_TRIES) {
            Ok(day) => {
                let Day {
                    clerk,
                    audit,
                    stations,
                } = day;
                hold_again(held.as_mut_slice(), stations.as_slice());
                match Box::new(alloc, clerk) {
                    Ok(clerk) => Ok((ScriptedClerk { clerk, held }, DayReport { audit, stations })),
                    Err(failed) => Err((failed.value.into_device(), DayRefusal::Memory)),
                }
            }
            Err((device, refusal)) => Err((device, refusal)),
        }
    }
}

/// How it is told that there was no day.
///
/// # Errors
/// Out of memory, which ends the script.
pub(crate) fn told_as(refusal: DayRefusal) -> Result<Refusal, ScriptFault>
    ensures { result ≡ told_as refusal }
{
    match refusal {
        DayRefusal::Memory => Err(ScriptFault::Memory),
        DayRefusal::Opening(refusal) => Ok(Refusal::Open(refusal)),
        DayRefusal::Closing(refusal) => Ok(Refusal::Close(refusal)),
    }
}

// Holds for each station the entries of its requests that have no answer.
fn hold_again(held: &mut [HeldEntries], stations: &[StationDay])
    requires as_many { length stations.now ≡ length held.old }
    requires no_more { (i : ℕ) (day : StationDay) → i < length held.old
        → length (slice_index_or stations.now i day).unanswered.items
        ≤ length (held_for held.old i) }
    ensures { held.new ≡ unanswered_of stations.now }
{
    for (station, entries) in held.iter_mut().enumerate() {
        // for the contract alone: it holds 16 entries at most
        let _ = entries.as_slice();
        entries.keep_all(stations[station].unanswered.as_slice());
    }
}
