//! How threads wait for each other.
use std::sync::atomic::{AtomicU64, Ordering};
use std::thread::yield_now;

/// How often a station that isn't privileged tries again, at most.
pub const TRIES: u64 = 100_000_000;

/// Waits until there are so many, however long other threads take.
pub fn wait_for(count: &AtomicU64, many: u64) {
    for _ in 0..u64::MAX {
        if count.load(Ordering::SeqCst) >= many {
            return;
        }
        yield_now();
    }
}
