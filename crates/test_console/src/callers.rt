//! An office whose seats have threads of their own.
ghost use Rattle.sector_device.specs.MemoryDevice.{memory_device_state};
ghost use Rattle.test_words.specs.Bench.{foreign_state};
ghost use Rattle.journal_recovery.specs.State.{State};
ghost use Rattle.line_lock.specs.OpenedOn.{Names};

use crate::closings::{Ending, end};
use crate::console::{Stage, Supply};
use crate::stations::run_some;
use four_state::Line;
use line_lock::{Blank, Count, Office, OpenedOn, Seat};
use sector_device::Device;
use std::alloc::AllocError;
use std::marker::Brand;
use std::sync::Wait;
use std::sync::atomic::{AtomicBool, Ordering};
use std::thread::{Threads, for_each_mut, yield_now};
use test_words::{Bench, Said, Told, read_line};
use turn_clerk::TurnRefusal;

// How often a caller is refused at most.
const TRIES: u64 = 10_000_000;

// What is done in an office.
#[derive(Clone, Copy)]
enum Work {
    // each seat takes so many turns
    Turns(u64),
    // the stations from the first one on that hold something run
    Run { first: u64, moves: u64, tries: u64 },
}

/// `callers STATIONS XBITS UPBITS TURNS`: an office in which each seat, in a thread of its own,
/// takes so many turns. `unclosed ..`: one that nobody closes then. `reclosed ..`: one that is
/// closed without its top seat first, goes on, and is closed with all. `stations STATIONS XBITS
/// UPBITS FIRST MOVES TRIES`: one in which some stations run. In hand is its clerk then.
pub fn call_in_threads<R: Threads + Wait + Sync>(
    rt: &R,
    device: Bench,
    supply: &mut Supply,
    name: &str,
    said: &mut Said<'_>,
    told: &mut Told,
) -> Stage {
    let Some(line) = read_line(said, told) else {
        return Stage::alone(device);
    };
    let work = match name {
        "stations" => Work::Run {
            first: said.number(),
            moves: said.number(),
            tries: said.number(),
        },
        _ => Work::Turns(said.number()),
    };
    let ending = match (name, work) {
        ("unclosed", _) => Ending::Unclosed,
        ("reclosed", Work::Turns(turns)) => Ending::Again(turns),
        _ => Ending::Closed,
    };
    let blank = Blank::new(line.stations() as u64);
    call_in::<Brand, R>(rt, device, supply, line, blank, (work, ending), told)
}

fn call_in<L: Count + OpenedOn + Send + Sync, R: Threads + Wait + Sync>(
    rt: &R,
    device: Bench,
    supply: &mut Supply,
    line: Line,
    blank: Blank,
    plan: (Work, Ending),
    told: &mut Told,
) -> Stage
    requires named { Names L.name L.parts L.device L.line blank
        (foreign_state (memory_device_state device.inner) device.failures) line }
    requires begins { (found : State) → L.begins found }
{
    let (work, ending) = plan;
    let (office, seats) = match Office::<Bench, L>::open(supply.hand.alloc, device, line, blank) {
        Ok(opened) => opened,
        Err(refused) => return Stage::alone(told.handed_back(refused)),
    };
    match do_work(rt, &office, seats, supply, work, told) {
        Ok(seats) => end(rt, office, seats, ending, told),
        Err(error) => Stage::alone(told.handed_back((office.given_up(), error))),
    }
}

fn do_work<L: Count + OpenedOn + Send + Sync, R: Threads + Wait + Sync>(
    rt: &R,
    office: &Office<Bench, L>,
    mut seats: Vec<Seat<L>>,
    supply: &mut Supply,
    work: Work,
    told: &mut Told,
) -> Result<Vec<Seat<L>>, AllocError> {
    match work {
        Work::Turns(turns) => {
            take_all_turns(rt, office, seats.as_mut_slice(), turns);
            Ok(seats)
        }
        Work::Run {
            first,
            moves,
            tries,
        } => run_some(rt, office, seats, supply, (first, moves, tries), told),
    }
}

/// A thread for each seat asks until that has so many turns, or is refused too often.
pub fn take_all_turns<
    D: Device + Send,
    L: Count + OpenedOn + Send + Sync,
    R: Threads + Wait + Sync,
>(rt: &R, office: &Office<D, L>, seats: &mut [Seat<L>], turns: u64) {
    if seats.is_empty() {
        return;
    }
    let stop = AtomicBool::new(false);
    let threads = seats.len();
    for_each_mut(
        rt,
        seats,
        threads,
        &|_, seat| { take_turns(rt, office, seat, &stop, turns) },
    );
}

// A station whose turn it isn't lets others go on, and one that is refused for another reason stops
// them.
fn take_turns<D: Device, L: Count + OpenedOn, R: Wait>(
    rt: &R,
    office: &Office<D, L>,
    seat: &mut Seat<L>,
    stop: &AtomicBool,
    turns: u64,
) {
    let mut left = turns;
    for _ in 0..TRIES {
        if left == 0 || stop.load(Ordering::SeqCst) {
            return;
        }
        match office.turn(rt, seat, &[]) {
            Ok(_) => left = left.saturating_sub(1),
            Err(TurnRefusal::NotPrivileged) => yield_now(),
            Err(_) => stop.store(true, Ordering::SeqCst),
        }
    }
}
