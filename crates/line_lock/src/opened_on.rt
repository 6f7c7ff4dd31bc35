//! What an office was opened on.
ghost use Rattle.sector_device.specs.Device.{DeviceState};
ghost use Rattle.four_state.specs.Configuration.{Configuration};
ghost use Rattle.journal_recovery.specs.State.{State};

use std::marker::Brand;

/// What the type that names an office says besides its count: the device and the line that the
/// office was opened with, and what is known of the ledger that its clerk began with. A lock
/// forgets them; the type doesn't, so that closing the office can tell of them. Who opens an office
/// by [`std::marker::Brand`] names them in a proof, as the count's name and parts.
pub trait OpenedOn {
    /// The device, as it was handed in.
    ghost device: { DeviceState };

    /// The line that was handed in.
    ghost line: { Configuration };

    /// What is known of the ledger that its clerk began with, and of the number of its next batch.
    ghost begins: { State → Type 0 };
}

impl OpenedOn for Brand {
    ghost use Rattle.line_lock.specs.OpenedOn.{no_device, no_line};

    ghost device = { no_device };

    ghost line = { no_line };

    ghost begins = { λ _. Unit {0} };
}
