//! Where damage is found: heads of banks, in the present layout.
ghost use Rattle.std.specs.Prelude.{◌<◌};

use crate::scenes::{formatted, needed};
use journal_recovery::{Cause, OpenRefusal, recover};
use ledger_damage::{Place, locate};
use sector_device::{Device, MemoryDevice, SECTOR};
use std::alloc::Global;
use std::process::Abort;

/// A byte that is changed: its sector, its number there, and what it becomes.
type Change = (u64, usize, u8);

// An empty ledger of four slots in each bank, with these bytes changed.
fn changed(rt: &impl Abort, alloc: Global, changes: &[Change]) -> MemoryDevice {
    let mut device = formatted(rt, alloc, 4);
    for (at, byte, value) in changes {
        assert!(rt; *at < device.sectors() && *byte < SECTOR);
        let mut bytes = *device.sector(*at);
        bytes[*byte] = *value;
        needed(rt, device.write(*at, &bytes));
    }
    needed(rt, device.sync());
    device
}

// A device with these changes is refused for the bank of that number, and the damage is found in
// this place.
fn is_found(
    rt: &impl Abort,
    alloc: Global,
    changes: &[Change],
    number: u64,
    sector: u64,
    byte: u16,
) -> bool
    requires { byte < 512 }
{
    let (slot, cause) = (number, Cause::Bank);
    let place = Place {
        bank: Some(u8::from(number == 1)),
        slot: None,
        sector,
        byte,
    };
    match recover(alloc, changed(rt, alloc, changes)) {
        Ok(_) => false,
        Err((mut device, refusal)) => {
            refusal == OpenRefusal::Damaged { slot, cause }
                && locate(&mut device, refusal) == Ok(Some(place))
        }
    }
}

// The heads are sectors 2 and 29. The magic and zeros have bytes 0 to 7, and zeros stand from 24
// on. The first bank is live, unless its gate, sector 1, is closed, and the other one's, sector 28,
// is open: then its head has zeros alone.
#[test]
fn damaged_heads_are_found(rt: HostRuntime) {
    let alloc = rt.alloc();
    let second = [(1, 0, 0), (28, 0, 0xa5)];
    assert!(rt;
        is_found(&rt, alloc, &[(2, 4, 1)], 0, 2, 4)
            && is_found(&rt, alloc, &[(2, 24, 1), (2, 7, 1)], 0, 2, 7)
            && is_found(&rt, alloc, &second, 1, 29, 0)
    );
}
