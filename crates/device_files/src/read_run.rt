ghost use Rattle.std.specs.Prelude.{◌+◌, ◌<◌, ◌≤◌, length, IsOk, OnOk};
ghost use Rattle.sector_device.specs.Device.{AreCalls};
ghost use Rattle.sector_device.specs.Crash.{IsLook};
ghost use Rattle.sector_device.specs.MemoryDevice.{memory_device_state};
ghost use Rattle.device_files.specs.Run.{Shows};

use sector_device::{Device, DeviceFault, MemoryDevice, Sector};

/// A device that can read several sectors in one call.
pub trait ReadRun: Device {
    /// Reads as many sectors as `into` has, one behind another, the first one at `at`. After a
    /// fault `into` holds any bytes, and the device is as before. A fault isn't counted among the
    /// failures: whoever needs one of the sectors reads it alone, and that read tells whether it
    /// can be read.
    fn read_run(&mut self, at: u64, into: &mut [Sector]) -> Result<(), DeviceFault>
        requires { at + length into.old ≤ length (Self.state self.old).reads }
        ensures call { AreCalls (Self.state self.old) (Self.state self.new) ⊥ }
        ensures same { (Self.state self.old).honest
            → IsLook (Self.state self.old) (Self.state self.new) }
        ensures bytes { (Self.state self.old).honest
            → OnOk result (Shows into.new (length into.new) (Self.state self.old).reads at) };
}

/// It reads them one by one, and none fails.
impl ReadRun for MemoryDevice {
    fn read_run(&mut self, at: u64, into: &mut [Sector]) -> Result<(), DeviceFault>
        requires { at + length into.old ≤ length (memory_device_state self.old).reads }
        ensures call { AreCalls (memory_device_state self.old) (memory_device_state self.new) ⊥ }
        ensures same { (memory_device_state self.old).honest
            → IsLook (memory_device_state self.old) (memory_device_state self.new) }
        ensures bytes { (memory_device_state self.old).honest
            → OnOk result (Shows into.new (length into.new)
            (memory_device_state self.old).reads at) }
        ensures never_fails { IsOk result }
    {
        // That the places fit their type.
        let _sectors = self.sectors();
        for (index, sector) in into.iter_mut().enumerate() {
            self.read(at + index as u64, sector)?;
        }
        Ok(())
    }
}
