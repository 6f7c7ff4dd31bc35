ghost use Rattle.std.specs.Prelude.{◌≡◌, ◌<◌, length, IsErr, OnOk};
ghost use Rattle.sector_device.specs.Image.{sector_at, with_sector};
ghost use Rattle.sector_device.specs.Device.{DeviceState, IsSound, AreCalls};
ghost use Rattle.sector_device.specs.Crash.{IsLook, IsWrite, IsDurable};

use thiserror::Error;

/// The size of a sector, in bytes.
pub const SECTOR: usize = 512;

/// A sector's size in numbers, as a statement; the body does nothing.
pub fn sector_in_numbers()
    ensures { SECTOR ≡ 512 }
{}

/// The bytes of one sector.
pub type Sector = [u8; SECTOR];

/// A device call failed. What that leaves is said at each call of `Device`.
#[derive(Clone, Copy, Debug, PartialEq, Eq, Error)]
#[error("the device failed")]
pub struct DeviceFault;

/// A row of sectors of 512 bytes, numbered from 0, which are read, written and synced by whole
/// sectors.
///
/// A sector is pending from the start of a write to it until the next sync that succeeds. A crash
/// leaves in each pending sector any 512 bytes, independently, and in every other sector what a
/// read gives. These are upper bounds: a device that loses less keeps them. All of it is promised
/// of an honest device; that calls keep honesty both ways, the number of sectors and the cause of a
/// fault are promised of every device.
pub trait Device {
    ghost state: { Self → DeviceState };

    /// How many sectors there are. It never changes.
    fn sectors(&self) -> u64
        ensures { result ≡ length (state self.now).reads };

    /// Reads a sector. After a fault `into` holds any bytes, and the device is as before.
    fn read(&mut self, at: u64, into: &mut Sector) -> Result<(), DeviceFault>
        requires { at < length (state self.old).reads }
        ensures call { AreCalls (state self.old) (state self.new) (IsErr result) }
        ensures same { (state self.old).honest → IsLook (state self.old) (state self.new) }
        ensures bytes { (state self.old).honest
            → OnOk result (into.new ≡ sector_at (state self.old).reads at) };

    /// Writes a sector. After a fault it reads as some 512 bytes, the same ones until it is written
    /// again.
    fn write(&mut self, at: u64, from: &Sector) -> Result<(), DeviceFault>
        requires { at < length (state self.old).reads }
        ensures call { AreCalls (state self.old) (state self.new) (IsErr result) }
        ensures torn { (state self.old).honest → IsWrite at (state self.old) (state self.new) }
        ensures written { (state self.old).honest
            → OnOk result ((state self.new).reads
            ≡ with_sector (state self.old).reads at from.now) };

    /// Makes all that was written durable. After a fault what was pending still is.
    fn sync(&mut self) -> Result<(), DeviceFault>
        ensures call { AreCalls (state self.old) (state self.new) (IsErr result) }
        ensures same { (state self.old).honest → IsLook (state self.old) (state self.new) }
        ensures durable { (state self.old).honest → OnOk result (IsDurable (state self.new)) };

    /// What holds of an honest device at each moment.
    ghost sound: { (device : Self) → (state device).honest → IsSound (state device) };
}
