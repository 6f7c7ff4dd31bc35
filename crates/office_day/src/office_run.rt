//! An office that is opened for its stations, runs, and is closed.
ghost use Rattle.std.specs.Prelude.{◌≡◌, ◌-◌, List, length, IfOk, IfErr};
ghost use Rattle.four_state.specs.Configuration.{stations};
ghost use Rattle.journal_recovery.specs.State.{State};
ghost use Rattle.turn_clerk.specs.Clerk.{opening_state, present_state};
ghost use Rattle.line_lock.specs.OpenedOn.{Names, WasLeftByClerk};
ghost use Rattle.line_lock.specs.Seat.{SeatState};
ghost use Rattle.line_lock.specs.Lent.{new_seats, AccountFor, IsClosed, IsRefused, IfOpening};
ghost use Rattle.line_lock.specs.Lent.{UnlessOpening};
ghost use Rattle.station_desk.specs.Asked.{HearsReports};
ghost use Rattle.office_day.specs.Day.{HaveServed};

use crate::seated::{StationRemains, risen, seated};
use four_state::Line;
use line_lock::{Blank, Closing, Count, Office, OfficeRefusal, OpenedOn, Seat};
use sector_device::Device;
use station_desk::{Desk, Gate, run_stations};
use std::alloc::{AllocError, Global};
use std::marker::Brand;
use std::sync::Wait;
use std::thread::Threads;
use turn_clerk::Clerk;

/// What an office run leaves: its closing, and what each station left, that of station 0 first.
pub type OfficeRun<D> = (Closing<D>, Vec<StationRemains>);

/// Opens an office on the device, with this line, seats its stations at these desks, that of
/// station 0 first, and lets them take turns, each in a thread of its own, until `moves` turns are
/// taken; one that isn't privileged tries again, at most `tries` times in a row. Then the office is
/// closed. The gate is told what the stations do. The call may wait.
///
/// # Errors
/// The device comes back. [`OfficeRefusal::Opening`]: as it was left by the opening; else as a
/// clerk that took turns on it left it. The desks are lost.
pub fn run_office<D: Device + Send, G: Gate + Sync, R: Threads + Wait + Sync>(
    rt: &R,
    alloc: Global,
    device: D,
    line: Line,
    desks: Vec<Desk>,
    gate: &G,
    moves: u64,
    tries: u64,
) -> Result<OfficeRun<D>, (D, OfficeRefusal<AllocError>)>
    requires as_many { length desks.items ≡ stations line }

    // Each report that is right is one that the gate hears.
    requires heard { HearsReports D.state (D.state device) line (λ _. Unit {0})
        (G.asks gate.now) (G.hears gate.now) }

    // What the stations made of their desks and of their seats, which account for the whole
    // history.
    ensures ran { IfOk result (λ run. (seats : List SeatState)
        × HaveServed D.state (D.state device) line (new_seats (stations line)) desks.items
        seats run.1.items moves (G.closes gate.now)
        × AccountFor (stations line) seats run.0.clerk) }

    // The clerk, over its whole life, and the audit.
    ensures closed { IfOk result (λ run.
        IsClosed D.state (D.state device) line run.0.clerk run.0.audit) }

    // What an office that isn't closed leaves.
    ensures left { IfErr result (λ e.
        UnlessOpening e.1 (WasLeftByClerk D.state (D.state device) line e.0)) }
    ensures opening { IfErr result (λ e. IfOpening e.1 (IsRefused D.state device e.0)) }
{
    let blank = Blank::new(line.stations() as u64);
    // the name is this call's own: the device and the line as they were handed in
    named_run::<D, Brand, G, R>(rt, alloc, device, line, blank, desks, gate, moves, tries)
}

/// The same over a clerk, which begins anew with its ledger and its line, so that nothing is read.
///
/// # Errors
/// The device comes back. [`OfficeRefusal::Opening`]: nothing was done; else as a clerk that took
/// turns on it left it. The desks are lost.
pub(crate) fn run_over<D: Device + Send, G: Gate + Sync, R: Threads + Wait + Sync>(
    rt: &R,
    alloc: Global,
    clerk: Clerk<D>,
    desks: Vec<Desk>,
    gate: &G,
    moves: u64,
    tries: u64,
) -> Result<OfficeRun<D>, (D, OfficeRefusal<AllocError>)>
    requires as_many { length desks.items ≡ stations clerk.line }
    requires heard { HearsReports D.state (D.state clerk.journal.device) clerk.line
        (λ found. found ≡ present_state clerk)
        (G.asks gate.now) (G.hears gate.now) }
    ensures ran { IfOk result (λ run. (seats : List SeatState)
        × HaveServed D.state (D.state clerk.journal.device) clerk.line
        (new_seats (stations clerk.line))
        desks.items seats run.1.items moves (G.closes gate.now)
        × AccountFor (stations clerk.line) seats run.0.clerk) }
    ensures closed { IfOk result (λ run.
        IsClosed D.state (D.state clerk.journal.device) clerk.line run.0.clerk run.0.audit) }
    ensures begins { IfOk result (λ run. opening_state run.0.clerk ≡ present_state clerk) }
    ensures left { IfErr result (λ e. UnlessOpening e.1
        (WasLeftByClerk D.state (D.state clerk.journal.device) clerk.line e.0)) }
    ensures opening { IfErr result (λ e. IfOpening e.1 (λ _. e.0 ≡ clerk.journal.device)) }
{
    let blank = Blank::new(clerk.line().stations() as u64);
    // the name is this call's own: the device, the line and the ledger as they were handed in
    named_over::<D, Brand, G, R>(rt, alloc, clerk, blank, desks, gate, moves, tries)
}

// The day of an office that has a name, which says what it is opened on.
fn named_run<
    D: Device + Send,
    L: Count + OpenedOn + Send + Sync,
    G: Gate + Sync,
    R: Threads + Wait + Sync,
>(
    rt: &R,
    alloc: Global,
    device: D,
    line: Line,
    blank: Blank,
    desks: Vec<Desk>,
    gate: &G,
    moves: u64,
    tries: u64,
) -> Result<OfficeRun<D>, (D, OfficeRefusal<AllocError>)>
    requires named { Names L.name L.parts L.device L.line blank (D.state device) line }
    requires begins { (found : State) → L.begins found }
    requires as_many { length desks.items ≡ stations line }
    requires heard { HearsReports D.state L.device L.line L.begins
        (G.asks gate.now) (G.hears gate.now) }
    ensures ran { IfOk result (λ run. (seats : List SeatState)
        × HaveServed D.state L.device L.line (new_seats (stations line))
        desks.items seats run.1.items moves (G.closes gate.now)
        × AccountFor (stations line) seats run.0.clerk) }
    ensures closed { IfOk result (λ run. IsClosed D.state L.device L.line run.0.clerk run.0.audit) }
    ensures left { IfErr result (λ e.
        UnlessOpening e.1 (WasLeftByClerk D.state L.device L.line e.0)) }
    ensures opening { IfErr result (λ e. IfOpening e.1 (IsRefused D.state device e.0)) }
{
    match Office::<D, L>::open(alloc, device, line, blank) {
        Ok((office, seats)) => run_in(rt, alloc, office, seats, desks, gate, moves, tries),
        Err((device, refusal)) => Err((device, OfficeRefusal::Opening(refusal))),
    }
}

// The same over a clerk.
fn named_over<
    D: Device + Send,
    L: Count + OpenedOn + Send + Sync,
    G: Gate + Sync,
    R: Threads + Wait + Sync,
>(
    rt: &R,
    alloc: Global,
    clerk: Clerk<D>,
    blank: Blank,
    desks: Vec<Desk>,
    gate: &G,
    moves: u64,
    tries: u64,
) -> Result<OfficeRun<D>, (D, OfficeRefusal<AllocError>)>
    requires named { Names L.name L.parts L.device L.line blank
        (D.state clerk.journal.device) clerk.line }
    requires begins { L.begins (present_state clerk) }
    requires as_many { length desks.items ≡ stations clerk.line }
    requires heard { HearsReports D.state L.device L.line L.begins
        (G.asks gate.now) (G.hears gate.now) }
    ensures ran { IfOk result (λ run. (seats : List SeatState)
        × HaveServed D.state L.device L.line (new_seats (stations clerk.line))
        desks.items seats run.1.items moves (G.closes gate.now)
        × AccountFor (stations clerk.line) seats run.0.clerk) }
    ensures closed { IfOk result (λ run. IsClosed D.state L.device L.line run.0.clerk run.0.audit) }
    ensures begins { IfOk result (λ run. L.begins (opening_state run.0.clerk)) }
    ensures left { IfErr result (λ e.
        UnlessOpening e.1 (WasLeftByClerk D.state L.device L.line e.0)) }
    ensures opening { IfErr result (λ e. IfOpening e.1 (λ _. e.0 ≡ clerk.journal.device)) }
{
    match Office::<D, L>::open_over(alloc, clerk, blank) {
        Ok((office, seats)) => run_in(rt, alloc, office, seats, desks, gate, moves, tries),
        Err((clerk, refusal)) => Err((clerk.into_device(), OfficeRefusal::Opening(refusal))),
    }
}

// The day of an office that was just opened, until it is closed.
fn run_in<
    D: Device + Send,
    L: Count + OpenedOn + Send + Sync,
    G: Gate + Sync,
    R: Threads + Wait + Sync,
>(
    rt: &R,
    alloc: Global,
    office: Office<D, L>,
    seats: Vec<Seat<L>>,
    desks: Vec<Desk>,
    gate: &G,
    moves: u64,
    tries: u64,
) -> Result<OfficeRun<D>, (D, OfficeRefusal<AllocError>)>
    requires one_each { L.parts ≡ stations L.line }
    requires seats { seats.items ≡ new_seats L.parts }
    requires as_many { length desks.items ≡ L.parts }
    requires heard { HearsReports D.state L.device L.line L.begins
        (G.asks gate.now) (G.hears gate.now) }
    ensures ran { IfOk result (λ run. (after : List SeatState)
        × HaveServed D.state L.device L.line (new_seats L.parts)
        desks.items after run.1.items moves (G.closes gate.now)
        × AccountFor L.parts after run.0.clerk) }
    ensures closed { IfOk result (λ run. IsClosed D.state L.device L.line run.0.clerk run.0.audit) }
    ensures begins { IfOk result (λ run. L.begins (opening_state run.0.clerk)) }
    ensures left { IfErr result (λ e. WasLeftByClerk D.state L.device L.line e.0) }
    ensures opened { IfErr result (λ e. IfOpening e.1 (λ _. ⊥)) }
{
    let (seats, left) = match served(rt, alloc, &office, seats, desks, gate, moves, tries) {
        Ok(both) => both,
        Err(refused) => return Err((office.given_up(), OfficeRefusal::Work(refused))),
    };
    match office.close(seats) {
        Ok(closing) => Ok((closing, left)),
        Err((office, _, refusal)) => Err((office.given_up(), OfficeRefusal::Closing(refusal))),
    }
}

// The stations take their seats, run, and rise again.
fn served<
    D: Device + Send,
    L: Count + OpenedOn + Send + Sync,
    G: Gate + Sync,
    R: Threads + Wait + Sync,
>(
    rt: &R,
    alloc: Global,
    office: &Office<D, L>,
    seats: Vec<Seat<L>>,
    desks: Vec<Desk>,
    gate: &G,
    moves: u64,
    tries: u64,
) -> Result<(Vec<Seat<L>>, Vec<StationRemains>), AllocError>
    requires as_many { length desks.items ≡ length seats.items }
    requires heard { HearsReports D.state L.device L.line L.begins
        (G.asks gate.now) (G.hears gate.now) }
    ensures { IfOk result (λ both.
        HaveServed D.state L.device L.line seats.items desks.items
        both.0.items both.1.items moves (G.closes gate.now)) }
{
    let mut stations = seated(alloc, seats, desks)?;
    run_stations(rt, office, stations.as_mut_slice(), gate, moves, tries);
    risen(alloc, stations)
}
