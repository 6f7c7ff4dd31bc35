//! Stations that take turns, each in a thread of its own.
ghost use Rattle.std.specs.Prelude.{◌≡◌, ◌≢◌, ◌+◌, ◌<◌, ◌≤◌, ◌↔◌, ◌∷◌, ◌++◌, [], List, length};
ghost use Rattle.std.specs.Prelude.{OnOk, OnErr, IsSomeAnd, Err, Some, None};
ghost use Rattle.turn_clerk.specs.declared.refusals.TurnRefusal.{TurnRefusal};
ghost use Rattle.turn_clerk.specs.declared.turns.Turn.{Turn};
ghost use Rattle.line_lock.specs.Seat.{WasAcknowledged, IsDeniedAfter};
ghost use Rattle.station_desk.specs.Worked.{HasWorked};
ghost use Rattle.station_desk.specs.Run.{HasRun, HaveRun};
ghost use Rattle.station_desk.specs.Asked.{HearsReports};

use crate::desk_end::Desk;
use crate::end::End;
use crate::errand::{Errand, put_question};
use crate::gate::Gate;
use line_lock::{Count, Office, OpenedOn, Seat, WithinRefusal};
use sector_device::Device;
use std::sync::Wait;
use std::sync::atomic::{AtomicBool, Ordering};
use std::thread::{Threads, for_each_mut, yield_now};
use turn_clerk::{Turn, TurnRefusal};

/// A station: its seat in the office, its desk, and how its last run ended.
#[derive(Drop)]
#[derive_where(Debug)]
pub struct Station<L: Count> {
    /// Its right to take turns, and those that it took.
    pub seat: Seat<L>,
    /// Where its clients' requests come in and the answers go out.
    pub desk: Desk,
    /// [`End::NotStarted`] until a run sets it.
    pub end: End,
}

// One round: a turn with all that is gathered, and an answer for each.
fn round<D: Device, L: Count + OpenedOn, G: Gate, R: Wait>(
    rt: &R,
    office: &Office<D, L>,
    seat: &mut Seat<L>,
    desk: &mut Desk,
    gate: &G,
    moves: u64,
) -> Result<(), WithinRefusal>
    ensures worked { HasWorked (WasAcknowledged D.state L.device L.line)
        seat.old seat.new desk.old desk.new moves
        (result ≡ Err (WithinRefusal.Turn TurnRefusal.Device)) }
    ensures one_turn { OnOk result (length seat.new.turns ≡ length seat.old.turns + 1) }
    ensures no_turn { OnErr result (seat.new.turns ≡ seat.old.turns) }
    ensures reached { result ≡ Err WithinRefusal.Reached → moves ≤ seat.new.reached }
    ensures denied { result ≡ Err (WithinRefusal.Turn TurnRefusal.NotPrivileged)
        → IsSomeAnd seat.new.denied (IsDeniedAfter L.device L.line seat.old.station) }
    ensures there { result ≢ Err (WithinRefusal.Turn TurnRefusal.NoStation) }
{
    let entries = desk.gather();
    gate.gathered(seat.station());
    let refusal = match office.take_turn_within(rt, seat, entries, moves) {
        Ok(_) => {
            desk.settle(newest(seat));
            gate.took(newest(seat));
            gate.answered(seat.station());
            return Ok(());
        }
        Err(refusal) => refusal,
    };
    if refusal != WithinRefusal::Turn(TurnRefusal::Device) {
        return Err(refusal);
    }
    desk.give_up();
    Err(refusal)
}

// The turn that a seat lists last.
fn newest<L: Count>(seat: &Seat<L>) -> &Turn
    requires { 0 < length seat.now.turns }
    ensures { (before : List Turn) → (turn : Turn) → seat.now.turns ≡ before ++ turn ∷ []
        → result.now ≡ turn }
{
    let turns = seat.turns();
    &turns[turns.len() - 1]
}

// How a station's run ends by a refusal, where it ends by it: one whose turn it isn't tries again.
fn end_of(refusal: WithinRefusal) -> Option<End>
    ensures reached { result ≡ Some End.Reached → refusal ≡ WithinRefusal.Reached }
    ensures device { (result ≡ Some (End.Refused TurnRefusal.Device))
        ↔ (refusal ≡ WithinRefusal.Turn TurnRefusal.Device) }
    ensures started { result ≢ Some End.NotStarted }
    ensures none { (result ≡ None) ↔ (refusal ≡ WithinRefusal.Turn TurnRefusal.NotPrivileged) }
    ensures refused { (why : TurnRefusal) → result ≡ Some (End.Refused why)
        → refusal ≡ WithinRefusal.Turn why }
    ensures stopped { result ≢ Some End.Stopped }
    ensures tries { result ≢ Some End.Tries }
    ensures closed { result ≢ Some End.Closed }
{
    match refusal {
        WithinRefusal::Reached => Some(End::Reached),
        WithinRefusal::Turn(refusal) => {
            if refusal == TurnRefusal::NotPrivileged {
                None
            } else {
                Some(End::Refused(refusal))
            }
        }
    }
}

// Rounds of a station until it ends, and how it ends.
fn work<D: Device, L: Count + OpenedOn, G: Gate, R: Wait>(
    rt: &R,
    office: &Office<D, L>,
    seat: &mut Seat<L>,
    desk: &mut Desk,
    gate: &G,
    stop: &AtomicBool,
    moves: u64,
    tries: u64,
) -> End
    requires heard { HearsReports D.state L.device L.line L.begins
        (G.asks gate.now) (G.hears gate.now) }
    ensures worked { HasWorked (WasAcknowledged D.state L.device L.line)
        seat.old seat.new desk.old desk.new moves (result ≡ End.Refused TurnRefusal.Device) }
    ensures reached { result ≡ End.Reached → moves ≤ seat.new.reached }
    ensures tries { result ≡ End.Tries
        → IsSomeAnd seat.new.denied (IsDeniedAfter L.device L.line seat.old.station) }
    ensures refused { result ≢ End.Refused TurnRefusal.NotPrivileged }
    ensures there { result ≢ End.Refused TurnRefusal.NoStation }
    ensures started { result ≢ End.NotStarted }
    ensures closed { result ≡ End.Closed → G.closes gate.now }
{
    let mut refused = 0;
    for _ in rt.forever() {
        if stop.load(Ordering::SeqCst) {
            return End::Stopped;
        }
        match gate.errand(rt, seat.station()) {
            Errand::Turn => {}
            Errand::Ask(question) => {
                let report = put_question(rt, office, seat, question);
                gate.reported(rt, seat.station(), question, report);
                continue;
            }
            Errand::Close => return End::Closed,
        }
        let Err(refusal) = round(rt, office, seat, desk, gate, moves) else {
            refused = 0;
            continue;
        };
        if let Some(end) = end_of(refusal) {
            return end;
        }
        if refused >= tries {
            return End::Tries;
        }
        refused += 1;
        yield_now();
    }
    unreachable!()
}

// The run of one station; one that ends otherwise than as Reached or Closed stops the others.
fn run_station<D: Device, L: Count + OpenedOn, G: Gate, R: Wait>(
    rt: &R,
    office: &Office<D, L>,
    station: &mut Station<L>,
    gate: &G,
    stop: &AtomicBool,
    moves: u64,
    tries: u64,
)
    requires heard { HearsReports D.state L.device L.line L.begins
        (G.asks gate.now) (G.hears gate.now) }
    ensures { HasRun D.state L.device L.line station.old.seat station.new.seat
        station.old.desk station.new.desk station.new.end moves (G.closes gate.now) }
{
    let Station { seat, desk, end } = station;
    *end = work(rt, office, seat, desk, gate, stop, moves, tries);
    if *end != End::Reached && *end != End::Closed {
        stop.store(true, Ordering::SeqCst);
    }
    gate.ended(seat.station());
}

/// Runs the stations of an office, one thread for each, until the history holds so many turns. A
/// station repeats what the gate tells it: it gathers, asks for its turn within `moves`, and
/// answers; or it is sent home. Where it isn't its turn it lets other threads go on and asks again,
/// at most `tries` times in a row. Where the device fails it answers what it holds that it is
/// undecided; after any other refusal what it holds stays held, for it was never written. A station
/// that ends otherwise than as [`End::Reached`] or [`End::Closed`] makes the others end as
/// [`End::Stopped`] at their next round. Where the system refuses a thread, stations run one after
/// another. The call may wait.
pub fn run_stations<
    D: Device + Send,
    L: Count + OpenedOn + Send + Sync,
    G: Gate + Sync,
    R: Threads + Wait + Sync,
>(rt: &R, office: &Office<D, L>, stations: &mut [Station<L>], gate: &G, moves: u64, tries: u64)
    // Each report that is right is one that the gate hears.
    requires heard { HearsReports D.state L.device L.line L.begins
        (G.asks gate.now) (G.hears gate.now) }
    ensures { HaveRun D.state L.device L.line stations.old stations.new moves (G.closes gate.now) }
{
    if stations.is_empty() {
        return;
    }
    let stop = AtomicBool::new(false);
    let threads = stations.len();
    for_each_mut(
        rt,
        stations,
        threads,
        &|_, station| { run_station(rt, office, station, gate, &stop, moves, tries) },
    );
}
