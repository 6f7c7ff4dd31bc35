//! What tests begin with: entries, a line from its digits, and an empty journal in memory. What a
//! test needs of a call it takes by [`needed`], which ends the process where it isn't there: so a
//! function has no other way out, at which it would be proved to drop all that it has.
//!
//! It has no tests of its own.
ghost use Rattle.std.specs.Prelude.{◌≡◌, ◌<◌, ◌≤◌, Ok};
ghost use Rattle.four_state.specs.Configuration.{stations};

use four_state::Line;
use gate_journal::{format, sectors_needed};
use sector_device::MemoryDevice;
use std::alloc::Global;
use std::fmt::Display;
use std::process::Abort;
use turn_ledger::Entry;

/// A deposit to an account, with the reference 1.
pub fn deposit(to: u32, amount: u64) -> Entry {
    Entry::Deposit {
        to,
        amount,
        reference: 1,
    }
}

/// A withdrawal from an account, with the reference 2.
pub fn withdrawal(from: u32, amount: u64) -> Entry {
    Entry::Withdraw {
        from,
        amount,
        reference: 2,
    }
}

/// The line of as many stations as there are digits, each 0 or 1, from the bottom station to the
/// top one: first the bits `x`, then the bits `up`. There are two digits at least.
pub fn line<const N: usize>(rt: &impl Abort, x: [u8; N], up: [u8; N]) -> Line
    requires { N < 65 }
    ensures { stations result ≡ N }
{
    let x = x.map(|bit| bit == 1);
    let up = up.map(|bit| bit == 1);
    needed(rt, Line::from_bits(N as u64, &x, &up))
}

/// What a test needs that a call answers it; else the test fails, and tells the refusal. `expect`
/// of std would be compiled with `Debug` of each refusal, and knows no refusal that hands something
/// back.
pub fn needed<T, E: Display + Drop>(rt: &impl Abort, answer: Result<T, E>) -> T
    ensures { answer ≡ Ok result }
{
    match answer {
        Ok(needed) => needed,
        Err(refusal) => rt.panic(refusal),
    }
}

/// The same of a call that hands something back with its refusal.
pub fn needed_of<T, B, E: Display + Drop>(rt: &impl Abort, answer: Result<T, (B, E)>) -> T
    ensures { answer ≡ Ok result }
{
    match answer {
        Ok(needed) => needed,
        Err((_, refusal)) => rt.panic(refusal),
    }
}

/// An empty journal with so many slots in each of its two banks, on a device in memory that has
/// just the sectors for it.
pub fn formatted(rt: &impl Abort, alloc: Global, slots: u64) -> MemoryDevice
    requires some { 1 ≤ slots }
    requires few { slots ≤ 1000000 }
{
    let mut device = needed(rt, MemoryDevice::new(alloc, sectors_needed(slots)));
    needed(rt, format(&mut device, slots));
    device
}
