//! Real files.
use crate::scenes::needed;
use device_files::{Device, FileDevice, SECTOR};
use std::fs;
use std::fs::{File, Files};
use std::os::unix::fs::FileExt;
use std::process::Abort;

const GROWN: &str = "file_device_grown/sectors";

// What the second sector is filled with.
const SECOND: u8 = 0x5a;

// Whether the sector of this number is filled with this byte.
fn is_filled<D: Device>(device: &mut D, at: u64, byte: u8) -> bool {
    let mut bytes = [0xff; SECTOR];
    at < device.sectors() && device.read(at, &mut bytes).is_ok() && bytes == [byte; SECTOR]
}

// Opens the file with at least so many sectors: whether there are as many as are to be found, its
// second sector is filled with this byte, and its first and last ones with zeros.
fn is_grown<R: Files<File = File> + AllocGlobal + Abort>(
    rt: &R,
    asked: u64,
    found: u64,
    second: u8,
) -> bool {
    let mut device = needed(rt, FileDevice::open(rt, rt.alloc(), GROWN, asked));
    let length = needed(rt, fs::metadata(rt, GROWN)).len();
    device.sectors() == found
        && length == found.saturating_mul(512)
        && is_filled(&mut device, 0, 0)
        && is_filled(&mut device, 1, second)
        && is_filled(&mut device, found.saturating_sub(1), 0)
}

// Opens the file and fills its second sector.
fn fill_second<R: Files<File = File> + AllocGlobal + Abort>(rt: &R) {
    let mut device = needed(rt, FileDevice::open(rt, rt.alloc(), GROWN, 3));
    needed(rt, device.write(1, &[SECOND; SECTOR]));
    needed(rt, device.sync());
}

#[test]
fn a_file_is_made_and_grown_and_never_cut(rt: HostRuntime) {
    let _ = fs::remove_dir_all(&rt, "file_device_grown");
    needed(&rt, fs::create_dir(&rt, "file_device_grown"));
    assert!(rt; is_grown(&rt, 3, 3, 0));
    fill_second(&rt);
    // How many sectors are asked for next, and how many there are then.
    for (asked, found) in [(0, 3), (2, 3), (600, 600), (1, 600), (601, 601)] {
        assert!(rt; is_grown(&rt, asked, found, SECOND));
    }
    needed(&rt, fs::remove_dir_all(&rt, "file_device_grown"));
}
