//! Devices that can lose their power.
ghost use Rattle.std.specs.Prelude.{◌≡◌, ℕ, []};
ghost use Rattle.sector_device.specs.Crash.{IsDurable};
ghost use Rattle.sector_device.specs.Device.{AreCalls};

use device_files::FileDevice;
use sector_device::{Device, MemoryDevice, Picks};
use std::alloc::Global;

/// A device whose power the script's line `crash` can cut.
pub trait PowerLoss: Device + Send {
    /// What a power loss makes of the device.
    ghost loses: { Self → Self → Type 0 } = { λ _ _. Unit {0} };

    /// The device after a power loss: it reads as one of the images that the loss may leave, and
    /// counts no failure for it.
    fn lose_power(self, alloc: Global) -> Self
        ensures call { AreCalls (Self.state self) (Self.state result) ⊥ }
        ensures left { (Self.state self).honest
            → (Self.state self).may_leave (Self.state result).reads }
        ensures lost { loses self result };
}

impl PowerLoss for MemoryDevice {
    ghost use Rattle.std.specs.Prelude.{[]};
    ghost use Rattle.sector_device.specs.MemoryDevice.{memory_device_state, IsPendingIn, HasPicks};

    ghost loses = { λ device after. HasPicks device [] (memory_device_state after).reads };

    /// Sectors that weren't synced keep what was last written: one of the images that a power loss
    /// may leave.
    fn lose_power(self, alloc: Global) -> Self
        ensures call { AreCalls (memory_device_state self) (memory_device_state result) ⊥ }
        ensures left { (memory_device_state self).honest
            → (memory_device_state self).may_leave (memory_device_state result).reads }
        ensures picked { HasPicks self [] (memory_device_state result).reads }
        ensures durable { IsDurable (memory_device_state result) }
        ensures settled { (at : ℕ) → IsPendingIn result at → ⊥ }
    {
        let no_picks = Picks {
            list: Vec::new(alloc),
        };
        self.crash(&no_picks)
    }
}

impl PowerLoss for FileDevice {
    ghost use Rattle.std.specs.Prelude.{◌≡◌};

    ghost loses = { λ device after. after ≡ device };

    /// The file as it is: no program cuts the power of its machine.
    fn lose_power(self, _: Global) -> Self
        ensures same { result ≡ self }
    {
        self
    }
}
