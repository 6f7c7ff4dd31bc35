ghost use Rattle.std.specs.Prelude.{◌≡◌};
ghost use Rattle.device_files.specs.ReadBuffer.{IsEmpty, Mirrors};

use crate::buffer::ReadBuffer;
use crate::read_run::ReadRun;
use sector_device::{Device, DeviceFault, Sector};
use std::marker::Model;

/// A device with a buffer for its reads. Contracts see it as the device within: it is honest
/// exactly if that is, and each call gives and keeps what that device's would.
///
/// A read of a sector that the buffer doesn't hold fills it with the 256 sectors from the eighth
/// before that one on. Where they can't be read, that sector alone is. A write to a sector that the
/// buffer holds empties it, and so does a call that fails. No call takes memory.
#[derive(Debug, Drop)]
pub struct ReadAhead<D: ReadRun> {
    inner: D,
    buffer: ReadBuffer,
}

impl<D: ReadRun> Model for ReadAhead<D> {
    ghost Value = { D };

    ghost view = { λ r. r.inner };

    ghost invariant = { λ r. (D.state r.inner).honest → Mirrors r.buffer (D.state r.inner).reads };
}

impl<D: ReadRun> ReadAhead<D> {
    /// The device, read through an empty buffer.
    pub fn new(inner: D, buffer: ReadBuffer) -> ReadAhead<D>
        requires { IsEmpty buffer }
        ensures { result ≡ inner }
    {
        ReadAhead { inner, buffer }
    }

    /// The device within, as it is.
    pub fn into_inner(self) -> D
        ensures { result ≡ self }
    {
        let ReadAhead { inner, .. } = self;
        inner
    }
}

impl<D: ReadRun> Device for ReadAhead<D> {
    ghost state = { λ device. D.state device };

    fn sectors(&self) -> u64 {
        self.inner.sectors()
    }

    fn read(&mut self, at: u64, into: &mut Sector) -> Result<(), DeviceFault> {
        if !self.buffer.holds(at) {
            if self.buffer.fill(&mut self.inner, at).is_err() {
                return self.inner.read(at, into);
            }
        }
        *into = *self.buffer.sector(at);
        Ok(())
    }

    fn write(&mut self, at: u64, from: &Sector) -> Result<(), DeviceFault> {
        let outcome = self.inner.write(at, from);
        if outcome.is_err() || self.buffer.holds(at) {
            self.buffer.empty();
        }
        outcome
    }

    fn sync(&mut self) -> Result<(), DeviceFault> {
        let outcome = self.inner.sync();
        if outcome.is_err() {
            self.buffer.empty();
        }
        outcome
    }

    ghost sound = { λ device honest. D.sound device honest };
}
