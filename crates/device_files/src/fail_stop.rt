ghost use Rattle.std.specs.Prelude.{◌≡◌, ◌+◌, ◌<◌, ◌≤◌, ◌↔◌, false, length, IsTrue, IsErr, OnOk};
ghost use Rattle.sector_device.specs.Image.{sector_at, with_sector};
ghost use Rattle.sector_device.specs.Device.{AreCalls, HasCause};
ghost use Rattle.sector_device.specs.Crash.{IsLook, IsWrite, IsDurable};
ghost use Rattle.sector_device.specs.Wrapped.{sound_with_failures};
ghost use Rattle.device_files.specs.FailStop.{FailStopState, CountsRefused, fail_stop_state};

use sector_device::{Device, DeviceFault, Sector};
use std::marker::Model;

/// A device that stops at a failed sync: from then on every call fails, without reaching the inner
/// device. Until then each call is the inner device's own. It is honest exactly if the inner device
/// is. No call takes memory.
///
/// After a failed sync a system may have dropped what was written, keep showing it, and answer the
/// next sync with success, so nothing that the inner device says from then on is handed on.
#[derive(Debug, Drop)]
pub struct FailStop<D: Device> {
    inner: D,
    stopped: bool,
    refused: u64,
}

impl<D: Device> Model for FailStop<D> {
    ghost Value = { FailStopState D };

    ghost view = { λ f. record { inner = f.inner; stopped = f.stopped; refused = f.refused } };
}

impl<D: Device> FailStop<D> {
    /// The device, of which no sync has failed.
    pub fn new(inner: D) -> FailStop<D>
        ensures { result ≡ record { inner = inner; stopped = false; refused = 0 } }
    {
        FailStop {
            inner,
            stopped: false,
            refused: 0,
        }
    }

    /// The inner device, as it is.
    pub fn into_inner(self) -> D
        ensures { result ≡ self.inner }
    {
        let FailStop { inner, .. } = self;
        inner
    }

    // Counts a call that is refused.
    fn ready(&mut self) -> Result<(), DeviceFault>
        ensures stopped { IsErr result ↔ IsTrue self.old.stopped }
        ensures kept { self.new ≡ record self.old { refused = self.new.refused } }
        ensures counted { CountsRefused self.old self.new }
        ensures cause { HasCause self.old.refused self.new.refused (IsErr result) }
        ensures no_fewer { self.old.refused ≤ self.new.refused }
    {
        if self.stopped {
            self.refused = self.refused.saturating_add(1);
            return Err(DeviceFault);
        }
        Ok(())
    }
}

impl<D: Device> Device for FailStop<D> {
    ghost state = { fail_stop_state D.state };

    fn sectors(&self) -> u64 {
        self.inner.sectors()
    }

    fn read(&mut self, at: u64, into: &mut Sector) -> Result<(), DeviceFault>
        requires { at < length (D.state self.old.inner).reads }
        ensures call { AreCalls (fail_stop_state D.state self.old)
            (fail_stop_state D.state self.new) (IsErr result) }
        ensures same { (D.state self.old.inner).honest
            → IsLook (fail_stop_state D.state self.old) (fail_stop_state D.state self.new) }
        ensures bytes { (D.state self.old.inner).honest
            → OnOk result (into.new ≡ sector_at (D.state self.old.inner).reads at) }
        ensures fails { IsTrue self.old.stopped → IsErr result }
        ensures unreached { IsTrue self.old.stopped → self.new.inner ≡ self.old.inner }
        ensures passed_on { (IsTrue self.old.stopped → ⊥)
            → AreCalls (D.state self.old.inner) (D.state self.new.inner) (IsErr result) }
        ensures counted { CountsRefused self.old self.new }
        ensures stopped { self.new.stopped ≡ self.old.stopped }
    {
        self.ready()?;
        self.inner.read(at, into)
    }

    fn write(&mut self, at: u64, from: &Sector) -> Result<(), DeviceFault>
        requires { at < length (D.state self.old.inner).reads }
        ensures call { AreCalls (fail_stop_state D.state self.old)
            (fail_stop_state D.state self.new) (IsErr result) }
        ensures torn { (D.state self.old.inner).honest
            → IsWrite at (fail_stop_state D.state self.old) (fail_stop_state D.state self.new) }
        ensures written { (D.state self.old.inner).honest
            → OnOk result ((D.state self.new.inner).reads
            ≡ with_sector (D.state self.old.inner).reads at from.now) }
        ensures fails { IsTrue self.old.stopped → IsErr result }
        ensures unreached { IsTrue self.old.stopped → self.new.inner ≡ self.old.inner }
        ensures passed_on { (IsTrue self.old.stopped → ⊥)
            → AreCalls (D.state self.old.inner) (D.state self.new.inner) (IsErr result) }
        ensures counted { CountsRefused self.old self.new }
        ensures stopped { self.new.stopped ≡ self.old.stopped }
    {
        self.ready()?;
        self.inner.write(at, from)
    }

    fn sync(&mut self) -> Result<(), DeviceFault>
        ensures call { AreCalls (fail_stop_state D.state self.old)
            (fail_stop_state D.state self.new) (IsErr result) }
        ensures same { (D.state self.old.inner).honest
            → IsLook (fail_stop_state D.state self.old) (fail_stop_state D.state self.new) }
        ensures durable { (D.state self.old.inner).honest
            → OnOk result (IsDurable (fail_stop_state D.state self.new)) }
        ensures fails { IsTrue self.old.stopped → IsErr result }
        ensures unreached { IsTrue self.old.stopped → self.new.inner ≡ self.old.inner }
        ensures passed_on { (IsTrue self.old.stopped → ⊥)
            → AreCalls (D.state self.old.inner) (D.state self.new.inner) (IsErr result) }
        ensures counted { CountsRefused self.old self.new }
        ensures stopped { IsTrue self.new.stopped ↔ IsErr result }
    {
        self.ready()?;
        let outcome = self.inner.sync();
        self.stopped = outcome.is_err();
        outcome
    }

    ghost sound = { λ f honest.
        sound_with_failures (D.state f.inner) f.refused (D.sound f.inner honest) };
}
