//! How an office ends that was opened by hand.
use crate::callers::take_all_turns;
use crate::console::Stage;
use line_lock::{Closing, Count, Office, OpenedOn, Seat};
use std::sync::Wait;
use std::thread::Threads;
use test_words::{Bench, Told};

/// What becomes of an office.
#[derive(Clone, Copy)]
pub enum Ending {
    /// It is closed.
    Closed,
    /// Nobody closes it.
    Unclosed,
    /// It is closed without its top seat, which is refused; then each seat takes so many turns
    /// more, and it is closed.
    Again(u64),
}

/// Ends the office. Its clerk is in hand then.
pub fn end<L: Count + OpenedOn + Send + Sync, R: Threads + Wait + Sync>(
    rt: &R,
    office: Office<Bench, L>,
    seats: Vec<Seat<L>>,
    ending: Ending,
    told: &mut Told,
) -> Stage {
    match ending {
        Ending::Closed => close(office, seats, told),
        Ending::Unclosed => Stage::Clerk(office.into_clerk()),
        Ending::Again(turns) => close_twice(rt, office, seats, turns, told),
    }
}

// Its clerk, or the office and the seats again, if that is refused.
fn closed<L: Count + OpenedOn>(
    office: Office<Bench, L>,
    seats: Vec<Seat<L>>,
    told: &mut Told,
) -> Result<Stage, (Office<Bench, L>, Vec<Seat<L>>)> {
    match office.close(seats) {
        Ok(Closing { clerk, audit }) => {
            told.audit(&audit);
            Ok(Stage::Clerk(clerk))
        }
        Err((office, seats, refusal)) => {
            told.refused(&refusal);
            Err((office, seats))
        }
    }
}

fn close<L: Count + OpenedOn>(
    office: Office<Bench, L>,
    seats: Vec<Seat<L>>,
    told: &mut Told,
) -> Stage {
    match closed(office, seats, told) {
        Ok(scene) => scene,
        Err((office, _)) => Stage::alone(office.given_up()),
    }
}

// Closes it without its top seat, and then, if that was refused, with all.
fn close_twice<L: Count + OpenedOn + Send + Sync, R: Threads + Wait + Sync>(
    rt: &R,
    office: Office<Bench, L>,
    mut seats: Vec<Seat<L>>,
    turns: u64,
    told: &mut Told,
) -> Stage {
    let top = seats.pop();
    match closed(office, seats, told) {
        Ok(scene) => scene,
        Err((office, seats)) => go_on(rt, office, seats, top, turns, told),
    }
}

// The office goes on with that seat, and is closed.
fn go_on<L: Count + OpenedOn + Send + Sync, R: Threads + Wait + Sync>(
    rt: &R,
    office: Office<Bench, L>,
    mut seats: Vec<Seat<L>>,
    top: Option<Seat<L>>,
    turns: u64,
    told: &mut Told,
) -> Stage {
    if let Some(top) = top {
        if seats.push(top).is_err() {
            told.line("no memory");
        }
    }
    take_all_turns(rt, &office, seats.as_mut_slice(), turns);
    close(office, seats, told)
}
