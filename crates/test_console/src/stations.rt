//! Some stations of an office, which run.
use crate::console::Supply;
use line_lock::{Count, Office, OpenedOn, Seat};
use office_day::HeldEntries;
use station_desk::{Desk, End, Gate, Station, desk, run_stations};
use std::alloc::{AllocError, Global};
use std::sync::Wait;
use std::sync::atomic::{AtomicU64, Ordering};
use std::thread::Threads;
use test_words::{Bench, Told};

// How many requests a desk has room for.
const PLACES: usize = 16;

// Counts how often stations have gathered.
#[derive(Drop)]
struct Rounds {
    count: AtomicU64,
}

impl Gate for Rounds {
    fn gathered(&self, _station: u8) {
        self.count.fetch_add(1, Ordering::SeqCst);
    }

    fn answered(&self, _station: u8) {}
}

/// A desk at which a client, who doesn't listen, has asked for what a station holds.
pub fn desk_of(alloc: Global, held: &HeldEntries) -> Result<Desk, AllocError> {
    let (mut feed, desk) = desk(alloc, PLACES)?;
    for entry in held.as_slice() {
        let _ = feed.submit(*entry);
    }
    Ok(desk)
}

/// As many stations as hold something run, from that one on, until so many turns are taken. One
/// that isn't privileged asks so often again. Tells how each ended, how many turns it took and when
/// it was denied one, and how often they gathered in all.
pub fn run_some<L: Count + OpenedOn + Send + Sync, R: Threads + Wait + Sync>(
    rt: &R,
    office: &Office<Bench, L>,
    seats: Vec<Seat<L>>,
    supply: &mut Supply,
    (first, moves, tries): (u64, u64, u64),
    told: &mut Told,
) -> Result<Vec<Seat<L>>, AllocError> {
    let alloc = supply.hand.alloc;
    let (mut stations, mut idle) = (Vec::new(alloc), Vec::new(alloc));
    seat_all(alloc, seats, supply, first, (&mut stations, &mut idle))?;
    supply.held.clear();
    let gate = Rounds {
        count: AtomicU64::new(0),
    };
    run_stations(rt, office, stations.as_mut_slice(), &gate, moves, tries);
    rise_all(stations, &mut idle, told)?;
    told.named("gathered", &gate.count.load(Ordering::SeqCst));
    Ok(idle)
}

// Makes stations of the seats from the first one on, as many as hold something. The others are
// idle.
fn seat_all<L: Count + OpenedOn>(
    alloc: Global,
    seats: Vec<Seat<L>>,
    supply: &Supply,
    first: u64,
    (stations, idle): (&mut Vec<Station<L>>, &mut Vec<Seat<L>>),
) -> Result<(), AllocError> {
    let mut held = supply.held.iter();
    for seat in seats {
        let next = if seat.station() as u64 >= first {
            held.next()
        } else {
            None
        };
        seat_one(alloc, seat, next, stations, idle)?;
    }
    Ok(())
}

fn seat_one<L: Count + OpenedOn>(
    alloc: Global,
    seat: Seat<L>,
    held: Option<&HeldEntries>,
    stations: &mut Vec<Station<L>>,
    idle: &mut Vec<Seat<L>>,
) -> Result<(), AllocError> {
    let Some(held) = held else {
        idle.push(seat)?;
        return Ok(());
    };
    let desk = desk_of(alloc, held)?;
    let end = End::NotStarted;
    stations.push(Station { seat, desk, end })?;
    Ok(())
}

// The seats of the stations, behind those that are idle, and how each station ended.
fn rise_all<L: Count + OpenedOn>(
    stations: Vec<Station<L>>,
    idle: &mut Vec<Seat<L>>,
    told: &mut Told,
) -> Result<(), AllocError> {
    for Station { seat, end, .. } in stations {
        told.value(&(end, seat.turns().len(), seat.denied()));
        idle.push(seat)?;
    }
    Ok(())
}
