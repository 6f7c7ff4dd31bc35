//! A device that fails on demand.
use crate::scenes::needed;
use fault_injector::{Fuse, Op};
use sector_device::{Device, MemoryDevice, SECTOR};

// Which of four calls fail: a write, a read, a write and a sync. Without a sector all do.
fn failures<D: Device>(device: &mut D) -> [bool; 4] {
    if device.sectors() == 0 {
        return [true; 4];
    }
    let mut bytes = [1; SECTOR];
    let first = device.write(0, &bytes).is_err();
    let second = device.read(0, &mut bytes).is_err();
    let third = device.write(0, &bytes).is_err();
    [first, second, third, device.sync().is_err()]
}

#[test]
fn a_fuse_fails_from_its_call_on(rt: HostRuntime) {
    let table = [
        (Op::Any, 2, [false, false, true, true]),
        (Op::Read, 0, [false, true, true, true]),
        (Op::Sync, 1, [false, false, false, false]),
    ];
    for (op, at, expected) in table {
        let mut device = Fuse::new(needed(&rt, MemoryDevice::new(rt.alloc(), 1)), op, at);
        assert!(rt; failures(&mut device) == expected);
    }
}
