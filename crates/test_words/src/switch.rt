//! Which call of a device fails, told to it from outside.
use std::sync::atomic::{AtomicBool, AtomicU64, Ordering};

/// A call of a device, with the sector that it is for. One that reads several in one go has the
/// first, and how many they are.
#[derive(Clone, Copy, Debug)]
pub enum Asked {
    Read(u64),
    Write(u64),
    Sync,
    Run(u64, usize),
}

/// Kinds of calls, one or all: the sum of their numbers.
pub const ANY: u64 = 15;

pub const READS: u64 = 1;

pub const WRITES: u64 = 2;

pub const SYNCS: u64 = 4;

pub const RUNS: u64 = 8;

/// Which call of a device fails: it is set while a journal or an office has the device.
#[derive(Drop)]
pub struct Switch {
    // The kinds that are counted.
    kinds: AtomicU64,
    // How many of these calls come before the one that fails, and then before the next one.
    left: AtomicU64,
    then: AtomicU64,
    // Whether all calls fail behind the first that failed.
    for_good: AtomicBool,
    has_failed: AtomicBool,
}

/// A number of calls that never comes.
pub const NEVER: u64 = u64::MAX;

impl Switch {
    /// No call fails.
    pub fn new() -> Switch {
        Switch {
            kinds: AtomicU64::new(0),
            left: AtomicU64::new(NEVER),
            then: AtomicU64::new(NEVER),
            for_good: AtomicBool::new(false),
            has_failed: AtomicBool::new(false),
        }
    }

    /// From now on calls of these kinds are counted. So many pass, then one fails; of the calls
    /// that then come so many pass, and one fails. Behind the first all of any kind fail if it is
    /// for good.
    pub fn set(&self, kinds: u64, left: u64, then: u64, for_good: bool) {
        self.kinds.store(kinds, Ordering::SeqCst);
        self.left.store(left, Ordering::SeqCst);
        self.then.store(then, Ordering::SeqCst);
        self.for_good.store(for_good, Ordering::SeqCst);
        self.has_failed.store(false, Ordering::SeqCst);
    }

    /// Whether a call failed since then.
    pub fn has_failed(&self) -> bool {
        self.has_failed.load(Ordering::SeqCst)
    }

    /// Counts a call, and tells whether it fails.
    pub fn fails(&self, call: Asked) -> bool {
        if self.for_good.load(Ordering::SeqCst) && self.has_failed() {
            return true;
        }
        let kind = match call {
            Asked::Read(_) => READS,
            Asked::Write(_) => WRITES,
            Asked::Sync => SYNCS,
            Asked::Run(_, _) => RUNS,
        };
        let left = self.left.load(Ordering::SeqCst);
        if self.kinds.load(Ordering::SeqCst) & kind == 0 || left == NEVER {
            return false;
        }
        if left > 0 {
            self.left.store(left.saturating_sub(1), Ordering::SeqCst);
            return false;
        }
        let then = self.then.swap(NEVER, Ordering::SeqCst);
        self.left.store(then, Ordering::SeqCst);
        self.has_failed.store(true, Ordering::SeqCst);
        true
    }
}
