//! An office that stays open: it is closed and opened again, on one device and one line, as often
//! as it takes.
ghost use Rattle.std.specs.Prelude.{◌≡◌, ◌↔◌, [], length, map, All, IsTrue, IfOk, IfErr, OnOk};
ghost use Rattle.four_state.specs.Configuration.{stations};
ghost use Rattle.sector_device.specs.Device.{IsSound};
ghost use Rattle.sector_device.specs.Crash.{WasLookedAt};
ghost use Rattle.turn_clerk.specs.Clerk.{present_state};
ghost use Rattle.turn_clerk.specs.Found.{after_looks};
ghost use Rattle.line_lock.specs.OpenedOn.{WasLeftByClerk};
ghost use Rattle.line_lock.specs.Lent.{IfOpening, UnlessOpening};
ghost use Rattle.station_desk.specs.declared.end.End.TheVariants.{Reached};
ghost use Rattle.station_desk.specs.Asked.{HearsReports};
ghost use Rattle.office_day.specs.Archive.{WasKept};
ghost use Rattle.office_day.specs.Spans.{adjourned_to, rest_of, span_of, IsSpan, HaveLeft};
ghost use Rattle.office_day.specs.Spans.{HasLived, WasBrokenOff, IsGoodEnd, HearsOverSpans};

use crate::office_run::run_over;
use crate::recess::Recess;
use crate::seated::StationRemains;
use line_lock::{Closing, OfficeRefusal};
use sector_device::Device;
use station_desk::{Desk, End, Gate};
use std::alloc::{AllocError, Global};
use std::sync::Wait;
use std::thread::Threads;
use sweep_auditor::Audit;
use turn_clerk::Clerk;

/// What an office is opened over.
#[derive(Drop)]
pub struct OfficeParts<D: Device> {
    /// The clerk, with its ledger, its line and its device.
    pub clerk: Clerk<D>,
    /// The desks of its stations, that of station 0 first.
    pub desks: Vec<Desk>,
}

/// An office that was open for some spans, and is closed.
#[derive(Drop)]
pub struct Life<D: Device> {
    /// The clerk of the last span, with that span's history.
    pub clerk: Clerk<D>,
    /// The audit of the last span's opening line and all its moves.
    pub audit: Audit,
    /// What each station left, that of station 0 first.
    pub left: Vec<StationRemains>,
}

/// Opens an office over the clerk, with its line and these desks, lets its stations take turns,
/// each in a thread of its own, and closes it. Where all `moves` turns were taken, the clerk begins
/// anew and the office is opened again, and so on, until a station ends otherwise: it was sent
/// home, though no recess was called, or refused. Between two spans the journal is lent to the
/// recess; else nothing is read of it. So the office's history takes the memory of one span,
/// however long it is open. The gate tells the stations what to do. An archive that the recess
/// keeps then has all batches of the spans before the last one, in order and each once, behind
/// those that it had. The call may wait.
///
/// # Errors
/// The device comes back, and the desks are lost. [`OfficeRefusal::Opening`]: a span can't be
/// opened, and the device is as it was left; else it is as a clerk that took turns on it left it.
pub fn run_spans<D: Device + Send, G: Gate + Sync, P: Recess, R: Threads + Wait + Sync>(
    rt: &R,
    alloc: Global,
    office: OfficeParts<D>,
    gate: &G,
    recess: &mut P,
    moves: u64,
) -> Result<Life<D>, (D, OfficeRefusal<AllocError>)>
    requires as_many { length office.desks.items ≡ stations office.clerk.line }
    requires heard { HearsOverSpans D.state moves (rest_of office.clerk)
        (G.asks gate.now) (G.hears gate.now) }
    ensures lived { IfOk result (λ life. HasLived D.state moves (G.closes gate.now)
        (adjourned_to office.clerk office.desks.items)
        (span_of life.clerk life.audit) life.left.items
        (P.archive recess.old) (P.archive recess.new)) }
    ensures ended { IfOk result (λ life. All (λ part. part.end ≡ Reached) life.left.items → ⊥) }
    ensures broken_off { IfErr result (λ e. WasBrokenOff D.state moves
        (adjourned_to office.clerk office.desks.items) e.0 e.1) }
{
    let mut office = office;
    for _ in rt.forever() {
        let life = match run_span(rt, alloc, office, gate, moves) {
            Ok(life) => life,
            Err((device, refusal)) => return Err((device, refusal)),
        };
        if !goes_on(life.left.as_slice(), recess) {
            return Ok(life);
        }
        office = match between_spans(alloc, life, recess) {
            Ok(office) => office,
            Err((device, refused)) => return Err((device, OfficeRefusal::Work(refused))),
        };
    }
    unreachable!()
}

// One span.
fn run_span<D: Device + Send, G: Gate + Sync, R: Threads + Wait + Sync>(
    rt: &R,
    alloc: Global,
    office: OfficeParts<D>,
    gate: &G,
    moves: u64,
) -> Result<Life<D>, (D, OfficeRefusal<AllocError>)>
    requires as_many { length office.desks.items ≡ stations office.clerk.line }
    requires heard { HearsReports D.state (D.state office.clerk.journal.device) office.clerk.line
        (λ found. found ≡ present_state office.clerk)
        (G.asks gate.now) (G.hears gate.now) }
    ensures closed { IfOk result (λ life. IsSpan D.state moves (rest_of office.clerk)
        (span_of life.clerk life.audit)) }
    ensures left { IfOk result (λ life.
        HaveLeft moves (G.closes gate.now) [] (span_of life.clerk life.audit)
        office.desks.items life.left.items) }
    ensures given_up { IfErr result (λ e. UnlessOpening e.1
        (WasLeftByClerk D.state (D.state office.clerk.journal.device) office.clerk.line e.0)) }
    ensures opening { IfErr result (λ e. IfOpening e.1 (λ _. e.0 ≡ office.clerk.journal.device)) }
{
    let OfficeParts { clerk, desks } = office;
    let run = run_over(rt, alloc, clerk, desks, gate, moves, u64::MAX)?;
    let (Closing { clerk, audit }, left) = run;
    // for the contract alone: where the records in sight of an image end
    clerk.how_far_back();
    Ok(Life { clerk, audit, left })
}

// Whether the office is opened again: all turns were taken, or its stations were sent home for a
// recess.
fn goes_on<P: Recess>(left: &[StationRemains], recess: &P) -> bool
    ensures well { IsTrue result → All (λ part. IsGoodEnd part.end) left.now }
    ensures reached { All (λ part. part.end ≡ Reached) left.now → IsTrue result }
{
    all_reached(left) || (all_ended_well(left) && recess.is_called())
}

// Whether each station ended since all turns were taken.
fn all_reached(left: &[StationRemains]) -> bool
    ensures { IsTrue result ↔ All (λ part. part.end ≡ Reached) left.now }
{
    left.iter().all(|part| part.end == End::Reached)
}

// Whether each station ended since all turns were taken, or was sent home.
fn all_ended_well(left: &[StationRemains]) -> bool
    ensures { IsTrue result ↔ All (λ part. IsGoodEnd part.end) left.now }
{
    left.iter()
        .all(|part| part.end == End::Reached || part.end == End::Closed)
}

// The office after a span, to be opened again behind a recess, which its journal is lent to.
fn between_spans<D: Device, P: Recess>(
    alloc: Global,
    life: Life<D>,
    recess: &mut P,
) -> Result<OfficeParts<D>, (D, AllocError)>
    ensures clerk { IfOk result (λ office.
        office.clerk ≡ after_looks life.clerk office.clerk.journal.device) }
    ensures looked { IfOk result (λ office.
        WasLookedAt (D.state life.clerk.journal.device) (D.state office.clerk.journal.device)) }
    ensures desks { IfOk result (λ office.
        office.desks.items ≡ map (λ part. part.desk) life.left.items) }
    ensures back { IfErr result (λ e. e.0 ≡ life.clerk.journal.device) }
    ensures archived { OnOk result (WasKept (D.state life.clerk.journal.device)
        (P.archive recess.old) (P.archive recess.new)) }
    ensures sound { let left = D.state life.clerk.journal.device in left.honest → IsSound left }
{
    let Life { clerk, left, .. } = life;
    match left.into_iter().map(|part| part.desk).collect(alloc) {
        Ok(desks) => Ok(OfficeParts {
            clerk: lent(clerk, recess),
            desks,
        }),
        Err(refused) => Err((clerk.into_device(), refused)),
    }
}

// The clerk, behind a recess that its journal was lent to.
fn lent<D: Device, P: Recess>(clerk: Clerk<D>, recess: &mut P) -> Clerk<D>
    ensures kept { result ≡ after_looks clerk result.journal.device }
    ensures looked { WasLookedAt (D.state clerk.journal.device) (D.state result.journal.device) }
    ensures archived { WasKept (D.state clerk.journal.device)
        (P.archive recess.old) (P.archive recess.new) }
{
    clerk.lend(recess)
}
