//! Clients that submit and collect while the stations take turns.
use crate::scenes::deposit;
use crate::threads::runs::{PLACES, Remains, feeds_and_desks, played_in_memory};
use crate::threads::waiting::TRIES;
use station_desk::{Desk, End, Errand, Feed, Gate, Outcome, Turn};
use std::alloc::Global;
use std::process::Abort;
use std::sync::Wait;
use std::sync::atomic::{AtomicBool, AtomicU64, Ordering};
use std::thread::{Parker, Threads, join, yield_now};

const REQUESTS: u64 = 200;

const MOVES: u64 = 20_000;

// What a client has done: how many deposits it submitted, and how many answers it collected, of
// requests that were posted, and others.
#[derive(Clone, Copy)]
struct Tally {
    submitted: u64,
    posted: u64,
    others: u64,
}

const NOTHING: Tally = Tally {
    submitted: 0,
    posted: 0,
    others: 0,
};

impl Tally {
    // Submits one more deposit if there is a place for it, and collects an answer if there is one,
    // which it tells.
    fn go_on(&mut self, feed: &mut Feed) -> bool {
        if self.submitted < REQUESTS && feed.submit(deposit(1, 1)).is_ok() {
            self.submitted = self.submitted.saturating_add(1);
        }
        let Some(answer) = feed.answer() else {
            return false;
        };
        match answer.outcome {
            Outcome::Posted(_) => self.posted = self.posted.saturating_add(1),
            Outcome::Refused(_) | Outcome::Undecided => {
                self.others = self.others.saturating_add(1);
            }
        }
        true
    }

    // Whether it has an answer, and has submitted more than its ring has places.
    fn has_more(&self) -> bool {
        self.posted > 0 && self.submitted > PLACES
    }
}

// A client, which submits as many deposits as its ring has places, and then one more for each
// answer. It ends once the run of the stations has returned and no answer is left.
fn work<R: Wait>(rt: &R, mut feed: Feed, pace: &Pace) -> Tally {
    let mut tally = NOTHING;
    for _ in rt.forever() {
        let has_returned = pace.has_returned.load(Ordering::SeqCst);
        if !tally.go_on(&mut feed) {
            if has_returned {
                break;
            }
            yield_now();
        }
        if tally.has_more() {
            pace.submitted_more();
        }
    }
    tally
}

// Two clients, each in a thread of its own.
fn both_work<R: Threads + Wait + Sync>(
    rt: &R,
    bottom: Feed,
    top: Feed,
    pace: &Pace,
) -> (Tally, Tally) {
    join(
        rt,
        move || work(rt, bottom, pace),
        move || work(rt, top, pace),
    )
}

// What the threads know of each other. Each of two stations sleeps until the other one has taken
// its turn. After half of the turns both sleep until a client has collected an answer and submitted
// more than its ring has places: the turns that follow answer that request, however slow the client
// is. Both go on once a station has ended.
#[derive(Drop)]
struct Pace {
    turns: AtomicU64,
    is_more_submitted: AtomicBool,
    has_returned: AtomicBool,
    parkers: [Parker; 2],
}

impl Pace {
    fn new() -> Pace {
        Pace {
            turns: AtomicU64::new(0),
            is_more_submitted: AtomicBool::new(false),
            has_returned: AtomicBool::new(false),
            parkers: [Parker::new(), Parker::new()],
        }
    }

    fn wake_both(&self) {
        for parker in &self.parkers {
            parker.unpark();
        }
    }

    // Goes on to the next turn, or past all of them.
    fn go_on(&self, turns: u64) {
        self.turns.fetch_add(turns, Ordering::SeqCst);
        self.wake_both();
    }

    fn submitted_more(&self) {
        if !self.is_more_submitted.swap(true, Ordering::SeqCst) {
            self.wake_both();
        }
    }

    // Whether a station has to wait, of whom the bottom one has the even turns.
    fn waits(&self, station: u8) -> bool {
        let turns = self.turns.load(Ordering::SeqCst);
        let is_early = turns == MOVES / 2 && !self.is_more_submitted.load(Ordering::SeqCst);
        turns < MOVES && (is_early || turns % 2 != u64::from(station))
    }
}

impl Gate for Pace {
    fn errand<R: Wait>(&self, rt: &R, station: u8) -> Errand {
        if let Some(parker) = self.parkers.get(usize::from(station)) {
            for _ in rt.forever() {
                if !self.waits(station) {
                    break;
                }
                parker.park(rt);
            }
        }
        Errand::Turn
    }

    fn gathered(&self, _station: u8) {}

    fn took(&self, _turn: &Turn) {
        self.go_on(1);
    }

    fn answered(&self, _station: u8) {}

    fn ended(&self, _station: u8) {
        self.go_on(MOVES);
    }
}

// All that was posted is told, and is in account 1; and a client was told of more than its ring has
// places for.
fn are_told((bottom, top): (Tally, Tally), left: &Remains) -> bool {
    let wanted = Remains {
        ends: [End::Reached; 2],
        turns: [MOVES / 2; 2],
        balance: Some(bottom.posted.saturating_add(top.posted)),
    };
    *left == wanted
        && (bottom.others, top.others) == (0, 0)
        && bottom.posted.max(top.posted) > PLACES
}

// The stations' run, and that it has returned.
fn run<R: Abort + Threads + Wait + Sync>(
    rt: &R,
    alloc: Global,
    desks: Vec<Desk>,
    pace: &Pace,
) -> Remains {
    let left = played_in_memory(rt, alloc, 400, desks, pace, MOVES, TRIES);
    pace.has_returned.store(true, Ordering::SeqCst);
    left
}

#[test]
fn clients_beside_stations(rt: HostRuntime) {
    let alloc = rt.alloc();
    let (bottom, top, desks) = feeds_and_desks(&rt, alloc);
    let pace = Pace::new();
    let (rt, pace) = (&rt, &pace);
    let (tallies, left) = join(
        rt,
        move || both_work(rt, bottom, top, pace),
        move || run(rt, alloc, desks, pace),
    );
    assert!(rt; are_told(tallies, &left));
}
