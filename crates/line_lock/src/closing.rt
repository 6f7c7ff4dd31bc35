//! What closing an office looks at, and what it answers.
ghost use Rattle.std.specs.Prelude.{◌≡◌, ◌≢◌, ℕ, ◌+◌, ◌-◌, ◌<◌, ◌≤◌, ◌⊎◌, ◌↔◌, All, sum_by, length};
ghost use Rattle.std.specs.Prelude.{take, true, false, IsTrue, OnOk, Err, Some, slice_get};
ghost use Rattle.four_state.specs.Configuration.{stations};
ghost use Rattle.sweep_auditor.specs.Audited.{IsAuditOf};
ghost use Rattle.turn_clerk.specs.History.{line_after, moves_of};
ghost use Rattle.line_lock.specs.Account.{turns_of, WasDenied, IsBorneOut, seats_of, IsSeatMissing};

use crate::seat::Seat;
use crate::told::{are_in_flight, was_held};
use four_state::Line;
use sector_device::Device;
use std::sync::ledger::{Ledger as Count, Share};
use sweep_auditor::{Audit, audit};
use thiserror::Error;
use turn_clerk::{Clerk, Turn};

/// A closed office: the clerk that it had, and the audit of the clerk's opening line and all its
/// moves.
#[derive(Drop)]
#[derive_where(Debug)]
pub struct Closing<D: Device> {
    /// The clerk, with the history of its whole life.
    pub clerk: Clerk<D>,
    /// From which turn on one station alone was privileged, and the last line.
    pub audit: Audit,
}

/// Why an office was not closed.
#[derive(Clone, Copy, Debug, PartialEq, Eq, Error)]
pub enum CloseRefusal {
    /// A station has no seat in the list.
    #[error("the seat of a station is missing")]
    SeatMissing,
    /// There are more seats than stations, or one that the office's history doesn't bear out.
    #[error("a seat does not belong to this office")]
    ForeignSeat,
}

// How many of the seats are a station's.
fn seats_of<L: Count>(seats: &[Seat<L>], station: u8) -> usize
    ensures { result ≡ seats_of station seats.now }
{
    seats
        .iter()
        .filter(|seat| seat.station() == station)
        .count()
}

// Whether some station has no seat.
fn is_seat_missing<L: Count>(seats: &[Seat<L>], stations: u8) -> bool
    ensures { IsTrue result ↔ IsSeatMissing stations seats.now }
{
    for station in 0..stations {
        if seats_of(seats, station) == 0 {
            return true;
        }
    }
    false
}

// Whether a turn stands at that place of a list.
fn stands_at(turns: &[Turn], place: usize, turn: &Turn) -> bool
    ensures { IsTrue result ↔ (slice_get turns.now place ≡ Some turn.now) }
{
    match turns.get(place) {
        Some(there) => there == turn,
        None => false,
    }
}

// Whether a seat's list has all turns of its station, in order, and no others.
fn lists_all<L: Count>(seat: &Seat<L>, history: &[Turn]) -> bool
    ensures { IsTrue result ↔ (seat.now.turns ≡ turns_of seat.now.station history.now) }
{
    let mut listed = 0;
    for turn in history {
        if turn.station == seat.station() {
            if !stands_at(seat.turns(), listed, turn) {
                return false;
            }
            listed += 1;
        }
    }
    listed == seat.turns().len()
}

// The line after so many turns of the history.
fn line_at<D: Device>(clerk: &Clerk<D>, turns: usize) -> Line
    requires { turns ≤ length clerk.now.history }
    ensures { result ≡ line_after clerk.now.opening.line (take turns clerk.now.history) }
{
    let mut line = clerk.opening();
    for step in &clerk.moves()[..turns] {
        line.make_move(step.station, step.rule);
    }
    line
}

// Whether the station had no privilege after so many turns of the history.
fn was_denied<D: Device>(clerk: &Clerk<D>, station: u8, turns: u64) -> bool
    requires { station < stations clerk.now.line }
    ensures { IsTrue result ↔ WasDenied clerk.now.opening.line clerk.now.history station turns }
{
    turns <= clerk.history().len() as u64
        && line_at(clerk, turns as usize).privilege(station).is_none()
}

// Whether the clerk bears out what a seat holds.
fn is_borne_out<D: Device, L: Count>(clerk: &Clerk<D>, seat: &Seat<L>) -> bool
    requires { stations clerk.now.line ≡ L.parts }
    ensures { IsTrue result ↔ IsBorneOut clerk.now seat.now }
{
    let denied = match seat.denied() {
        Some(turns) => was_denied(clerk, seat.station(), turns),
        None => true,
    };
    let held = match seat.told() {
        Some(told) => was_held(clerk, &told),
        None => true,
    };
    let failed = match &seat.undecided {
        Some(entries) => {
            are_in_flight(clerk, entries) && clerk.in_flight_station() == seat.station()
        }
        None => true,
    };
    let faulted = clerk.is_faulted() || !seat.was_faulted();
    let reached = seat.reached() <= clerk.history().len() as u64;
    denied && held && failed && faulted && reached && lists_all(seat, clerk.history())
}

/// Whether an office with this clerk can be closed with these seats, or why not.
pub(crate) fn look_at<D: Device, L: Count>(
    clerk: &Clerk<D>,
    seats: &[Seat<L>],
) -> Result<(), CloseRefusal>
    requires { stations clerk.now.line ≡ L.parts }
    ensures missing { (result ≡ Err CloseRefusal.SeatMissing) ↔ IsSeatMissing L.parts seats.now }
    ensures foreign { result ≡ Err CloseRefusal.ForeignSeat
        → (length seats.now ≢ L.parts) ⊎ (¬ All (IsBorneOut clerk.now) seats.now) }
    ensures one_each { OnOk result ((station : ℕ) → station < L.parts
        → seats_of station seats.now ≡ 1) }
    ensures as_many { OnOk result (length seats.now ≡ L.parts) }
    ensures borne_out { OnOk result (All (IsBorneOut clerk.now) seats.now) }
    ensures there { OnOk result (All (λ turn. turn.station < L.parts) clerk.now.history) }
    ensures counted { OnOk result (length clerk.now.history
        ≡ sum_by (λ seat. length seat.turns) seats.now) }
{
    let stations = clerk.line().stations();
    if is_seat_missing(seats, stations) {
        return Err(CloseRefusal::SeatMissing);
    }
    if seats.len() != stations as usize {
        return Err(CloseRefusal::ForeignSeat);
    }
    for seat in seats {
        if !is_borne_out(clerk, seat) {
            return Err(CloseRefusal::ForeignSeat);
        }
    }
    // for the contract alone: the moves of the history are a run of a line
    clerk.legal_history();
    let _ = clerk.opening().stations();
    Ok(())
}

/// All seats' shares, put together with what was left of the ledger.
pub(crate) fn gathered<L: Count>(rest: Share<L>, seats: Vec<Seat<L>>) -> Share<L>
    requires { (rest.parts ≡ 0) × (rest.amount ≡ 0) }
    ensures parts { result.parts ≡ length seats.items }
    ensures amount { result.amount ≡ sum_by (λ seat. length seat.turns + seat.failed) seats.items }
{
    let mut all = rest;
    for seat in seats {
        let Seat { share, .. } = seat;
        all.merge(share);
    }
    all
}

/// The audit of a clerk's opening line and all its moves.
pub(crate) fn audited<D: Device>(clerk: &Clerk<D>) -> Audit
    ensures { IsAuditOf clerk.now.opening.line (moves_of clerk.now.history) result }
{
    match audit(clerk.opening(), clerk.moves()) {
        Ok(audit) => audit,
        Err(_) => unreachable!(),
    }
}
