//! An office that is closed and opened again after each span.
ghost use Rattle.std.specs.Prelude.{◌≡◌, length};
ghost use Rattle.four_state.specs.Configuration.{stations};

use crate::archives::tell_batches;
use crate::clerks::clerk_on;
use crate::console::{Stage, Supply};
use crate::stations::desk_of;
use four_state::Line;
use line_lock::OfficeRefusal;
use office_day::{HeldEntries, Life, MemoryArchive, OfficeParts, run_spans};
use station_desk::{Desk, Errand, Gate};
use std::alloc::{AllocError, Global};
use std::sync::Wait;
use std::sync::atomic::{AtomicU64, Ordering};
use std::thread::Threads;
use test_words::{Bench, Said, Told, read_line};
use turn_clerk::{Clerk, Turn};

// Sends stations home once so many turns were taken in all.
#[derive(Drop)]
struct Until {
    turns: u64,
    taken: AtomicU64,
}

impl Gate for Until {
    fn errand<R: Wait>(&self, _rt: &R, _station: u8) -> Errand {
        if self.taken.load(Ordering::SeqCst) >= self.turns {
            return Errand::Close;
        }
        Errand::Turn
    }

    fn gathered(&self, _station: u8) {}

    fn took(&self, _turn: &Turn) {
        self.taken.fetch_add(1, Ordering::SeqCst);
    }

    fn answered(&self, _station: u8) {}
}

// What spans are lived with: a line and a desk for each of its stations, how many turns a span has,
// and how many there are in all.
#[derive(Drop)]
struct SpanPlan {
    line: Line,
    desks: Vec<Desk>,
    moves: u64,
    turns: u64,
    ghost as_many: { length desks.items ≡ stations line },
}

/// `spans STATIONS XBITS UPBITS MOVES TURNS`: an office on the device is closed and opened again
/// after so many turns each, until so many are taken in all, or a station is refused. The archive
/// in hand catches up between two spans, and is told. The clerk of the last one is in hand then.
pub fn have_spans<R: Threads + Wait + Sync>(
    rt: &R,
    device: Bench,
    supply: &mut Supply,
    said: &mut Said<'_>,
    told: &mut Told,
) -> Stage {
    match planned(supply, said, told) {
        Some(plan) => live(rt, device, plan, supply, told),
        None => Stage::alone(device),
    }
}

fn planned(supply: &mut Supply, said: &mut Said<'_>, told: &mut Told) -> Option<SpanPlan> {
    let line = read_line(said, told)?;
    let (moves, turns) = (said.number(), said.number());
    let desks = match desks_of(supply.hand.alloc, supply.held.as_slice()) {
        Ok(desks) => desks,
        Err(error) => {
            told.refused(&error);
            return None;
        }
    };
    if desks.len() != line.stations() as usize || moves == 0 {
        told.line("not asked: not as many stations hold something, or no moves");
        return None;
    }
    supply.held.clear();
    Some(SpanPlan {
        line,
        desks,
        moves,
        turns,
    })
}

fn live<R: Threads + Wait + Sync>(
    rt: &R,
    device: Bench,
    plan: SpanPlan,
    supply: &mut Supply,
    told: &mut Told,
) -> Stage {
    let Some(archive) = &mut supply.archive else {
        told.line("not asked: no archive");
        return Stage::alone(device);
    };
    let SpanPlan {
        line,
        desks,
        moves,
        turns,
    } = plan;
    let gate = Until {
        turns,
        taken: AtomicU64::new(0),
    };
    let clerk = match clerk_on(supply.hand.alloc, device, line) {
        Ok(clerk) => clerk,
        Err(refused) => return Stage::alone(told.handed_back(refused)),
    };
    match lived(
        rt,
        supply.hand.alloc,
        OfficeParts { clerk, desks },
        &gate,
        archive,
        moves,
    ) {
        Ok(clerk) => {
            tell_batches(archive, told);
            Stage::Clerk(clerk)
        }
        Err(refused) => Stage::alone(told.handed_back(refused)),
    }
}

// The clerk of the last span.
fn lived<R: Threads + Wait + Sync>(
    rt: &R,
    alloc: Global,
    office: OfficeParts<Bench>,
    gate: &Until,
    archive: &mut MemoryArchive,
    moves: u64,
) -> Result<Clerk<Bench>, (Bench, OfficeRefusal<AllocError>)>
    requires as_many { length office.desks.items ≡ stations office.clerk.line }
{
    let Life { clerk, .. } = run_spans(rt, alloc, office, gate, archive, moves)?;
    Ok(clerk)
}

fn desks_of(alloc: Global, held: &[HeldEntries]) -> Result<Vec<Desk>, AllocError> {
    let mut desks = Vec::new(alloc);
    for one in held {
        desks.push(desk_of(alloc, one)?)?;
    }
    Ok(desks)
}
