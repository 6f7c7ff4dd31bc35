ghost use Rattle.std.specs.Prelude.{◌≡◌, ◌+◌, ◌<◌, ◌≤◌, length, IsErr, OnOk, Ok};
ghost use Rattle.sector_device.specs.Image.{sector_at, with_sector};
ghost use Rattle.sector_device.specs.Device.{AreCalls};
ghost use Rattle.sector_device.specs.Crash.{IsLook, IsWrite, IsDurable};
ghost use Rattle.sector_device.specs.Wrapped.{one_more, sound_with_failures};
ghost use Rattle.device_files.specs.ReadOnly.{ReadOnlyState, IsSettled, read_only_state};

use sector_device::{Device, DeviceFault, Sector};
use std::marker::Model;

/// A device that is only read: no call but a read reaches the device within. A write fails and is
/// counted. A sync answers `Ok` at once, and makes nothing durable: if the inner device is honest,
/// nothing of it was pending when it was handed in, and reads leave that so. It is honest exactly
/// if the inner device is. No call takes memory.
#[derive(Debug, Drop)]
pub struct ReadOnly<D: Device> {
    inner: D,
    refused: u64,
}

impl<D: Device> Model for ReadOnly<D> {
    ghost Value = { ReadOnlyState D };

    ghost view = { λ r. record { inner = r.inner; refused = r.refused } };

    ghost invariant = { λ r. IsSettled (D.state r.inner) };
}

impl<D: Device> ReadOnly<D> {
    /// The device, of which no write was refused. If it is honest, nothing may be pending: sync it
    /// first.
    pub fn new(inner: D) -> ReadOnly<D>
        requires { IsSettled (D.state inner) }
        ensures { result ≡ record { inner = inner; refused = 0 } }
    {
        ReadOnly { inner, refused: 0 }
    }

    /// The inner device, as it is.
    pub fn into_inner(self) -> D
        ensures { result ≡ self.inner }
    {
        let ReadOnly { inner, .. } = self;
        inner
    }
}

impl<D: Device> Device for ReadOnly<D> {
    ghost state = { read_only_state D.state };

    fn sectors(&self) -> u64 {
        self.inner.sectors()
    }

    fn read(&mut self, at: u64, into: &mut Sector) -> Result<(), DeviceFault>
        requires { at < length (D.state self.old.inner).reads }
        ensures call { AreCalls (read_only_state D.state self.old)
            (read_only_state D.state self.new) (IsErr result) }
        ensures same { (D.state self.old.inner).honest
            → IsLook (read_only_state D.state self.old) (read_only_state D.state self.new) }
        ensures bytes { (D.state self.old.inner).honest
            → OnOk result (into.new ≡ sector_at (D.state self.old.inner).reads at) }
        ensures passed_on { AreCalls (D.state self.old.inner) (D.state self.new.inner)
            (IsErr result) }
        ensures refused { self.new.refused ≡ self.old.refused }
    {
        self.inner.read(at, into)
    }

    fn write(&mut self, at: u64, from: &Sector) -> Result<(), DeviceFault>
        requires { at < length (D.state self.old.inner).reads }
        ensures call { AreCalls (read_only_state D.state self.old)
            (read_only_state D.state self.new) (IsErr result) }
        ensures torn { (D.state self.old.inner).honest
            → IsWrite at (read_only_state D.state self.old) (read_only_state D.state self.new) }
        ensures written { (D.state self.old.inner).honest
            → OnOk result ((D.state self.new.inner).reads
            ≡ with_sector (D.state self.old.inner).reads at from.now) }
        ensures fails { IsErr result }
        ensures unreached { self.new.inner ≡ self.old.inner }
        ensures counted { self.new.refused ≡ one_more self.old.refused }
    {
        let _ = at;
        let _ = from;
        self.refused = self.refused.saturating_add(1);
        Err(DeviceFault)
    }

    fn sync(&mut self) -> Result<(), DeviceFault>
        ensures call { AreCalls (read_only_state D.state self.old)
            (read_only_state D.state self.new) (IsErr result) }
        ensures same { (D.state self.old.inner).honest
            → IsLook (read_only_state D.state self.old) (read_only_state D.state self.new) }
        ensures durable { (D.state self.old.inner).honest
            → OnOk result (IsDurable (read_only_state D.state self.new)) }
        ensures works { result ≡ Ok tt }
        ensures unreached { self.new ≡ self.old }
    {
        // for the contract alone: nothing is pending
        let _ = &self.inner;
        Ok(())
    }

    ghost sound = { λ r honest.
        sound_with_failures (D.state r.inner) r.refused (D.sound r.inner honest) };
}
