//! What a power loss takes.
use crate::scenes::needed;
use sector_device::{Device, MemoryDevice, Picks, SECTOR, Sector};
use std::process::Abort;

const ZERO: Sector = [0; SECTOR];

const OLD: Sector = [7; SECTOR];

const NEW: Sector = [8; SECTOR];

const TORN: Sector = [9; SECTOR];

fn write(rt: &impl Abort, device: &mut MemoryDevice, at: u64, bytes: &Sector) {
    assert!(rt; at < device.sectors());
    needed(rt, device.write(at, bytes));
}

// Sector 0 is written and synced, sectors 1 and 2 are written after that, and sector 3 never.
fn write_and_sync(rt: &impl Abort, device: &mut MemoryDevice) {
    write(rt, device, 0, &OLD);
    needed(rt, device.sync());
    write(rt, device, 1, &NEW);
    write(rt, device, 2, &OLD);
    write(rt, device, 2, &NEW);
}

// Whether the sectors are filled with these bytes.
fn are_filled(device: &MemoryDevice, bytes: &[u8; 4]) -> bool {
    for (at, byte) in bytes.iter().enumerate() {
        if at as u64 >= device.sectors() || *device.sector(at as u64) != [*byte; SECTOR] {
            return false;
        }
    }
    true
}

// The picks, and then what sectors 0 to 3 are filled with after the power loss.
#[test]
fn a_power_loss_takes_the_last_pick_for_each_pending_sector(rt: HostRuntime) {
    let table: [(&[(u64, Sector)], [u8; 4]); 3] = [
        (&[], [7, 8, 8, 0]),
        (&[(2, ZERO), (1, OLD), (2, TORN)], [7, 7, 9, 0]),
        (&[(0, TORN), (3, TORN), (4, TORN)], [7, 8, 8, 0]),
    ];
    for (list, after) in table {
        let mut device = needed(&rt, MemoryDevice::new(rt.alloc(), 4));
        write_and_sync(&rt, &mut device);
        let list = needed(&rt, list.to_vec(rt.alloc()));
        assert!(rt; are_filled(&device.crash(&Picks { list }), &after));
    }
}
