//! The words of a whole day: what stations hold, and the day itself.
ghost use Rattle.std.specs.Prelude.{◌≡◌, length};
ghost use Rattle.four_state.specs.Configuration.{stations};

use crate::console::{Stage, Supply};
use four_state::Line;
use office_day::{Day, DayRefusal, HeldEntries, StationDay, run_day};
use std::alloc::Global;
use std::sync::Wait;
use std::thread::Threads;
use test_words::{Bench, Said, Told, read_entries, read_line};

// How often a station that isn't privileged tries again, at most.
const TRIES: u64 = 100_000_000;

/// `hold [ENTRY]..`: what the next station of a day holds, the lowest one first.
pub fn hold(supply: &mut Supply, said: &mut Said<'_>, told: &mut Told) {
    read_entries(said, &mut supply.hand.entries);
    let Ok(mut held) = HeldEntries::new(supply.hand.alloc) else {
        told.line("no memory");
        return;
    };
    for entry in supply.hand.entries.iter() {
        if held.keep(*entry).is_none() {
            told.line("no place");
        }
    }
    if supply.held.push(held).is_err() {
        told.line("no memory");
    }
}

/// `day STATIONS XBITS UPBITS MOVES [TRIES]`: an office on the device is open until so many turns
/// are taken. Its clerk is in hand then.
pub fn have_day<R: Threads + Wait + Sync>(
    rt: &R,
    device: Bench,
    supply: &mut Supply,
    said: &mut Said<'_>,
    told: &mut Told,
) -> Stage {
    let Some(line) = read_line(said, told) else {
        return Stage::alone(device);
    };
    let (moves, tries, held) = (said.number(), said.number_or(TRIES), supply.held.as_slice());
    if !said.is_right(told) {
        return Stage::alone(device);
    }
    if held.len() != line.stations() as usize {
        told.line("not asked: not as many stations hold something");
        return Stage::alone(device);
    }
    let day = day_of(rt, supply.hand.alloc, device, line, held, moves, tries);
    supply.held.clear();
    match day {
        Ok(day) => account_for(day, told),
        Err(refused) => Stage::alone(told.handed_back(refused)),
    }
}

fn day_of<R: Threads + Wait + Sync>(
    rt: &R,
    alloc: Global,
    device: Bench,
    line: Line,
    held: &[HeldEntries],
    moves: u64,
    tries: u64,
) -> Result<Day<Bench>, (Bench, DayRefusal)>
    requires held { length held.now ≡ stations line }
{
    run_day(rt, alloc, device, line, held, moves, tries)
}

// Tells of a day. Its clerk is in hand then.
fn account_for(day: Day<Bench>, told: &mut Told) -> Stage {
    let Day {
        clerk,
        audit,
        stations,
    } = day;
    tell_stations(stations.as_slice(), told);
    told.audit(&audit);
    Stage::Clerk(clerk)
}

fn tell_stations(stations: &[StationDay], told: &mut Told) {
    for station in stations {
        told.named("end", &station.end);
        told.value(&station.answers);
        told.value(&station.unanswered);
    }
}
