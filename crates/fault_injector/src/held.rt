ghost use Rattle.std.specs.Prelude.{◌≡◌, Some, true, false};

use crate::failing::{Failing, FaultRule};
use crate::op::Op;
use sector_device::Device;
use std::alloc::Global;
use std::sync::Arc;
use std::sync::atomic::{AtomicBool, Ordering};
use std::thread;

/// How often a held call looks for its leave at most.
pub const HELD_LOOKS: u32 = 10_000_000;

/// This number, as a statement; the body does nothing.
pub fn held_looks_in_numbers()
    ensures { HELD_LOOKS ≡ 10000000 }
{}

/// After how many looks it lets other threads run. On a busy machine that takes milliseconds, and a
/// look nanoseconds.
const LOOKS_IN_A_ROW: u32 = 1_000;

/// The two flags between a held call and whoever lets it go. Nothing is claimed of them.
#[derive(Debug, Default, Drop)]
pub struct HeldFlags {
    /// The call has begun.
    pub begun: AtomicBool,
    /// The call may go on.
    pub go: AtomicBool,
}

impl HeldFlags {
    /// Both flags down.
    pub fn new() -> HeldFlags {
        HeldFlags::default()
    }

    // Raises the one flag, and looks for the other.
    fn seen(&self) -> bool {
        self.begun.store(true, Ordering::SeqCst);
        for look in 0..HELD_LOOKS {
            if self.go.load(Ordering::SeqCst) {
                return true;
            }
            if look % LOOKS_IN_A_ROW == 0 {
                thread::yield_now();
            }
        }
        false
    }
}

/// The call waits for a leave: it raises the flag `begun`, and looks for the flag `go` at most
/// 10,000,000 times. If it sees that one it is passed on, else it alone fails.
#[derive(Debug, Drop)]
pub struct Leave(pub Arc<HeldFlags, Global>);

impl FaultRule for Leave {
    ghost FOR_GOOD = { false };

    ghost may_give_leave = { true };

    const FOR_GOOD: bool = false;

    fn gives_leave(&self) -> bool {
        self.0.seen()
    }
}

/// A device that holds one call until it has its leave. Every other call is passed on.
pub type Held<D> = Failing<D, Leave>;

impl<D: Device> Held<D> {
    /// A device that holds sync number `at`.
    pub fn new(inner: D, at: u64, flags: Arc<HeldFlags, Global>) -> Held<D>
        ensures { result ≡ record { inner = inner; op = Op.Sync; left = Some at; failures = 0 } }
    {
        Failing::by_rule(inner, Op::Sync, at, Leave(flags))
    }
}
