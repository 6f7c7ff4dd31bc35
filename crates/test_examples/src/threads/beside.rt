//! Threads at once: a station gathers while another one's sync is under way.
use crate::scenes::{deposit, formatted, needed};
use crate::threads::runs::{Remains, feeds_and_desks, played};
use crate::threads::waiting::{TRIES, wait_for};
use fault_injector::{Held, HeldFlags};
use station_desk::{Desk, Errand, Gate, Outcome};
use std::alloc::Global;
use std::process::Abort;
use std::sync::atomic::{AtomicBool, AtomicU64, Ordering};
use std::sync::{Arc, Wait};
use std::thread::{Threads, yield_now};

// How often the gate looks at most, once the sync has its leave. It lets other threads run each
// time, which a busy machine needs.
const LOOKS: u32 = 10_000_000;

// How often station 1 looks whether the sync has begun, before it gathers.
const FIRST_LOOKS: u32 = 100_000;

// Gives leave to the held sync when station 1 has gathered for the first time, and then looks
// whether it has begun. The sync waits for a while only, so station 0 begins once the other one's
// thread runs. Station 1 mostly gathers when the sync has begun; where it is early, it waits then.
#[derive(Drop)]
struct BesideSync {
    flags: Arc<HeldFlags, Global>,
    arrived: AtomicU64,
    asked: AtomicBool,
    seen: AtomicBool,
}

impl BesideSync {
    fn has_begun(&self) -> bool {
        self.flags.begun.load(Ordering::SeqCst)
    }

    // Station 1 is there.
    fn arrive(&self) {
        self.arrived.store(1, Ordering::SeqCst);
        for _ in 0..FIRST_LOOKS {
            if self.has_begun() {
                return;
            }
        }
    }
}

impl Gate for BesideSync {
    fn errand<R: Wait>(&self, _rt: &R, station: u8) -> Errand {
        match station {
            0 => wait_for(&self.arrived, 1),
            _ => self.arrive(),
        }
        Errand::Turn
    }

    fn gathered(&self, station: u8) {
        if station != 1 || self.asked.swap(true, Ordering::SeqCst) {
            return;
        }
        self.flags.go.store(true, Ordering::SeqCst);
        for _ in 0..LOOKS {
            if self.has_begun() {
                self.seen.store(true, Ordering::SeqCst);
                return;
            }
            yield_now();
        }
    }

    fn answered(&self, _station: u8) {}
}

// Flags that aren't up, and nobody who has arrived.
fn beside_sync(rt: &impl Abort, alloc: Global) -> BesideSync {
    BesideSync {
        flags: needed(rt, Arc::new(alloc, HeldFlags::new())),
        arrived: AtomicU64::new(0),
        asked: AtomicBool::new(false),
        seen: AtomicBool::new(false),
    }
}

// One turn on a device whose second sync is held.
fn run_held<R: Abort + Threads + Wait + Sync>(
    rt: &R,
    alloc: Global,
    desks: Vec<Desk>,
    gate: &BesideSync,
) -> Remains {
    let flags = needed(rt, Arc::try_clone(&gate.flags));
    let device = Held::new(formatted(rt, alloc, 4), 1, flags);
    played(rt, alloc, device, desks, gate, 1, TRIES)
}

// Whether that turn posts what the bottom station's client asked for.
fn is_posted<R: Abort + Threads + Wait + Sync>(rt: &R, alloc: Global, gate: &BesideSync) -> bool {
    let (mut feed, _, desks) = feeds_and_desks(rt, alloc);
    let _ = feed.submit(deposit(1, 5));
    let left = run_held(rt, alloc, desks, gate);
    match feed.answer() {
        Some(answer) => left.balance == Some(5) && answer.outcome == Outcome::Posted(0),
        None => false,
    }
}

#[test]
fn gather_runs_beside_sync(rt: HostRuntime) {
    let gate = beside_sync(&rt, rt.alloc());
    assert!(rt; !gate.has_begun() && !gate.flags.go.load(Ordering::SeqCst));
    assert!(rt; is_posted(&rt, rt.alloc(), &gate) && gate.seen.load(Ordering::SeqCst));
}
