//! A run of the two stations of an office, with a gate that a test gives.
ghost use Rattle.std.specs.Prelude.{◌≤◌};
ghost use Rattle.station_desk.specs.declared.errand.Question.{Question};
ghost use Rattle.station_desk.specs.declared.errand.Report.{Report};

use crate::scenes::{formatted, line, needed, needed_of};
use line_lock::Turn;
use office_day::{Closing, StationRemains, run_office};
use sector_device::{Device, MemoryDevice};
use station_desk::{Desk, End, Feed, Gate, desk};
use std::alloc::Global;
use std::process::Abort;
use std::sync::Wait;
use std::thread::Threads;

/// How many requests a feed has room for.
pub const PLACES: u64 = 4;

/// What a run leaves: how each station ended, how many turns it took, and what account 1 holds.
#[derive(Clone, Copy, PartialEq, Eq)]
pub struct Remains {
    pub ends: [End; 2],
    pub turns: [u64; 2],
    pub balance: Option<u64>,
}

/// The run, until so many turns are taken. The bottom station is privileged at its start. The gate
/// may be told whatever report.
pub fn played<D: Device + Send + Drop, G: Gate + Sync, R: Abort + Threads + Wait + Sync>(
    rt: &R,
    alloc: Global,
    device: D,
    desks: Vec<Desk>,
    gate: &G,
    moves: u64,
    tries: u64,
) -> Remains
    requires heard { (question : Question) → (report : Report) → G.hears gate.now question report }
{
    let line = line(rt, [0, 0], [1, 0]);
    assert!(rt; desks.len() == line.stations() as usize);
    let run = run_office(rt, alloc, device, line, desks, gate, moves, tries);
    let (closing, left) = needed_of(rt, run);
    of_run(&closing, left.as_slice())
}

/// The same on an empty journal in memory, with so many slots in each bank.
pub fn played_in_memory<G: Gate + Sync, R: Abort + Threads + Wait + Sync>(
    rt: &R,
    alloc: Global,
    slots: u64,
    desks: Vec<Desk>,
    gate: &G,
    moves: u64,
    tries: u64,
) -> Remains
    requires some { 1 ≤ slots }
    requires few { slots ≤ 1000000 }
    requires heard { (question : Question) → (report : Report) → G.hears gate.now question report }
{
    let device = formatted(rt, alloc, slots);
    played(rt, alloc, device, desks, gate, moves, tries)
}

fn of_run<D: Device>(closing: &Closing<D>, left: &[StationRemains]) -> Remains {
    let history = closing.clerk.history();
    Remains {
        ends: [end_of(left, 0), end_of(left, 1)],
        turns: [turns_of(history, 0), turns_of(history, 1)],
        balance: closing.clerk.ledger().balance(1),
    }
}

fn end_of(left: &[StationRemains], station: usize) -> End {
    match left.get(station) {
        Some(station) => station.end,
        None => End::NotStarted,
    }
}

fn turns_of(history: &[Turn], station: u8) -> u64 {
    let mut count: u64 = 0;
    for turn in history {
        if turn.station == station {
            count = count.saturating_add(1);
        }
    }
    count
}

/// The feed of the bottom station, that of the top one, and both desks.
pub fn feeds_and_desks(rt: &impl Abort, alloc: Global) -> (Feed, Feed, Vec<Desk>) {
    let (bottom_feed, bottom) = needed(rt, desk(alloc, PLACES as usize));
    let (top_feed, top) = needed(rt, desk(alloc, PLACES as usize));
    (
        bottom_feed,
        top_feed,
        needed(rt, vec![in alloc; bottom, top]),
    )
}
