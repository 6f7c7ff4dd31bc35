//! A posting that was acknowledged outlives a power failure.
use gate_journal::format;
use sector_device::{MemoryDevice, Picks};
use std::alloc::Global;
use std::test::Fail;
use turn_clerk::{Clerk, Entry, Line};

fn opened(alloc: Global, device: MemoryDevice) -> Result<Clerk<MemoryDevice>, Fail> {
    let line = Line::from_bits(2, &[false, false], &[true, false])?;
    match Clerk::open(alloc, device, line) {
        Ok(clerk) => Ok(clerk),
        Err((_, refusal)) => Err(Fail::from(refusal)),
    }
}

fn posted(alloc: Global, device: MemoryDevice) -> Result<MemoryDevice, Fail> {
    let (to, amount, reference) = (1, 500, 7);
    let deposit = Entry::Deposit {
        to,
        amount,
        reference,
    };
    let mut clerk = opened(alloc, device)?;
    clerk.turn(0, &[deposit])?;
    Ok(clerk.into_device())
}

#[test]
fn an_acknowledged_posting_outlives_a_power_failure(rt: HostRuntime) -> Result<(), Fail> {
    let alloc = rt.alloc();
    let mut device = MemoryDevice::new(alloc, 55)?;
    format(&mut device, 4)?;
    let list = Vec::new(alloc);
    let device = posted(alloc, device)?.crash(&Picks { list });
    let clerk = opened(alloc, device)?;
    assert!(rt; clerk.ledger().balance(1) == Some(500));
    Ok(())
}
