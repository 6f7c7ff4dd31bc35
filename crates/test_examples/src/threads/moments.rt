//! What a station does when, as a gate sees it.
use crate::scenes::deposit;
use crate::threads::runs::{Remains, feeds_and_desks, played_in_memory};
use crate::threads::waiting::{TRIES, wait_for};
use station_desk::{End, Feed, Gate, Turn};
use std::alloc::Global;
use std::process::Abort;
use std::sync::atomic::{AtomicU64, Ordering};
use std::sync::{Mutex, Wait};
use std::thread::Threads;

// Stands at the feed of the bottom station: submits one more deposit each time that this station
// has gathered, and counts the answers that it finds then and when it is told of a turn, or else
// when the station has answered.
#[derive(Drop)]
struct AtTheFeed {
    feed: Mutex<Feed>,
    looks_at_the_turn: bool,
    before: AtomicU64,
    after: AtomicU64,
}

impl Gate for AtTheFeed {
    fn gathered(&self, station: u8) {
        if station > 0 {
            return;
        }
        if let Some(mut feed) = self.feed.try_lock() {
            count_answers(&mut *feed, &self.before);
            let _ = feed.submit(deposit(1, 7));
        }
    }

    fn took(&self, _turn: &Turn) {
        if self.looks_at_the_turn {
            self.look();
        }
    }

    fn answered(&self, _station: u8) {
        if !self.looks_at_the_turn {
            self.look();
        }
    }
}

impl AtTheFeed {
    fn look(&self) {
        if let Some(mut feed) = self.feed.try_lock() {
            count_answers(&mut *feed, &self.after);
        }
    }
}

fn count_answers(feed: &mut Feed, count: &AtomicU64) {
    for _ in 0..4 {
        if feed.answer().is_some() {
            count.fetch_add(1, Ordering::SeqCst);
        }
    }
}

// Whether one turn of the bottom station, beside such a gate, posts the two deposits that were
// there before, and tells of both in time.
fn is_in_time<R: Abort + Threads + Wait + Sync>(
    rt: &R,
    alloc: Global,
    looks_at_the_turn: bool,
) -> bool {
    let (mut feed, _, desks) = feeds_and_desks(rt, alloc);
    let _ = feed.submit(deposit(1, 5));
    let _ = feed.submit(deposit(1, 6));
    let gate = AtTheFeed {
        feed: Mutex::new(feed),
        looks_at_the_turn,
        before: AtomicU64::new(0),
        after: AtomicU64::new(0),
    };
    let left = played_in_memory(rt, alloc, 4, desks, &gate, 1, TRIES);
    let wanted = Remains {
        ends: [End::Reached; 2],
        turns: [1, 0],
        balance: Some(11),
    };
    let before = gate.before.load(Ordering::SeqCst);
    left == wanted && before == 0 && gate.after.load(Ordering::SeqCst) == 2
}

#[test]
fn answers_are_there_when_a_gate_hears_of_them_and_what_comes_after_gathering_waits(
    rt: HostRuntime,
) {
    assert!(rt; is_in_time(&rt, rt.alloc(), true) && is_in_time(&rt, rt.alloc(), false));
}

// How the top station of two ends behind refusals, and the bottom one behind it: it was privileged
// again.
fn gave_up(turns: [u64; 2]) -> Remains {
    Remains {
        ends: [End::Stopped, End::Tries],
        turns,
        balance: Some(0),
    }
}

// How often station 1 has gathered when station 0 takes its first turn and its second one, and that
// it has ended.
const GATHERED: [u64; 2] = [3, 6];

const ENDED: u64 = 100;

// Counts how often station 1 has gathered and station 0 has answered, and has the one wait for the
// other: station 0 takes a turn only after two refusals of station 1, and its last one once station
// 1 has ended.
#[derive(Drop)]
struct AfterRefusals {
    gathered: AtomicU64,
    answered: AtomicU64,
}

impl Gate for AfterRefusals {
    fn gathered(&self, station: u8) {
        if station == 0 {
            let answered = self.answered.load(Ordering::SeqCst);
            let gathered = GATHERED.get(answered as usize).unwrap_or(&ENDED);
            wait_for(&self.gathered, *gathered);
            return;
        }
        let before = self.gathered.fetch_add(1, Ordering::SeqCst);
        match before {
            2 => wait_for(&self.answered, 1),
            5 => wait_for(&self.answered, 2),
            _ => {}
        }
    }

    fn answered(&self, station: u8) {
        if station == 0 {
            self.answered.fetch_add(1, Ordering::SeqCst);
        }
    }

    fn ended(&self, station: u8) {
        if station == 1 {
            self.gathered.fetch_add(ENDED, Ordering::SeqCst);
        }
    }
}

// Station 1 is refused twice, takes a turn, is refused twice, takes a turn, and is refused three
// times.
#[test]
fn tries_begin_anew_with_a_turn(rt: HostRuntime) {
    let alloc = rt.alloc();
    let gate = AfterRefusals {
        gathered: AtomicU64::new(0),
        answered: AtomicU64::new(0),
    };
    let (_, _, desks) = feeds_and_desks(&rt, alloc);
    let left = played_in_memory(&rt, alloc, 4, desks, &gate, 100, 2);
    assert!(rt; left == gave_up([3, 2]) && gate.gathered.load(Ordering::SeqCst) == 9 + ENDED);
}

// After a turn of station 0 station 1 takes one, which gives station 0 the privilege anew, and asks
// in vain. Station 0 waits until it has ended.
#[derive(Drop)]
struct PrivilegedAnew {
    answers: AtomicU64,
    ends: AtomicU64,
}

impl Gate for PrivilegedAnew {
    fn gathered(&self, station: u8) {
        if station == 1 {
            wait_for(&self.answers, 1);
        }
    }

    fn answered(&self, station: u8) {
        if station == 0 {
            self.answers.fetch_add(1, Ordering::SeqCst);
            wait_for(&self.ends, 1);
        }
    }

    fn ended(&self, station: u8) {
        if station == 1 {
            self.ends.fetch_add(1, Ordering::SeqCst);
        }
    }
}

#[test]
fn a_station_that_gives_up_stops_one_that_is_privileged(rt: HostRuntime) {
    let alloc = rt.alloc();
    let gate = PrivilegedAnew {
        answers: AtomicU64::new(0),
        ends: AtomicU64::new(0),
    };
    let (_, _, desks) = feeds_and_desks(&rt, alloc);
    let left = played_in_memory(&rt, alloc, 4, desks, &gate, 100, 0);
    assert!(rt; left == gave_up([1, 1]));
}
