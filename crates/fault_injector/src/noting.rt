ghost use Rattle.std.specs.Prelude.{◌≡◌, ◌<◌, [], length, vec_capacity, IsErr, IfOk, IfErr, OnOk};
ghost use Rattle.sector_device.specs.Image.{sector_at, with_sector};
ghost use Rattle.sector_device.specs.Device.{AreCalls};
ghost use Rattle.sector_device.specs.Crash.{IsLook, IsWrite, IsDurable};
ghost use Rattle.fault_injector.specs.Noting.{NotingState, HasNoted};

use crate::call::Call;
use sector_device::{Device, DeviceFault, Sector};
use std::alloc::{AllocFailed, Global};
use std::marker::Model;

/// A device that notes the calls that reach it, in order, and passes each on. It has room for so
/// many calls; those behind them are passed on and not noted. It is honest exactly if the inner
/// device is, and counts no failure of its own.
///
/// Give it more room than calls are expected: a list that is full doesn't tell of a call too many.
#[derive(Debug, Drop)]
pub struct Noting<D: Device> {
    inner: D,
    calls: Vec<Call>,
}

impl<D: Device> Model for Noting<D> {
    ghost Value = { NotingState D };

    ghost view = { λ n.
        record { inner = n.inner; calls = n.calls.items; room = vec_capacity n.calls } };
}

impl<D: Device> Noting<D> {
    /// A device that has noted nothing, with room for so many calls.
    ///
    /// # Errors
    /// Out of memory; the inner device comes back.
    pub fn new(alloc: Global, inner: D, room: usize) -> Result<Noting<D>, AllocFailed<D>>
        ensures new { IfOk result (λ n. n ≡ record { inner = inner; calls = []; room = room }) }
        ensures back { IfErr result (λ failed. failed.value ≡ inner) }
    {
        match Vec::with_capacity(alloc, room) {
            Ok(calls) => Ok(Noting { inner, calls }),
            Err(_) => Err(AllocFailed { value: inner }),
        }
    }

    /// The calls that it has noted, the first one first.
    pub fn calls(&self) -> &[Call]
        ensures { result.now ≡ self.now.calls }
    {
        self.calls.as_slice()
    }

    /// The inner device, as it is.
    pub fn into_inner(self) -> D
        ensures { result ≡ self.inner }
    {
        let Noting { inner, .. } = self;
        inner
    }

    // Puts the call behind the others, where there is room.
    fn note(&mut self, call: Call)
        ensures inner { self.new.inner ≡ self.old.inner }
        ensures noted { HasNoted self.old self.new call }
    {
        if self.calls.len() < self.calls.capacity() {
            self.calls.push_reserved(call);
        }
    }
}

impl<D: Device> Device for Noting<D> {
    ghost state = { λ n. D.state n.inner };

    fn sectors(&self) -> u64 {
        self.inner.sectors()
    }

    fn read(&mut self, at: u64, into: &mut Sector) -> Result<(), DeviceFault>
        requires { at < length (D.state self.old.inner).reads }
        ensures call { AreCalls (D.state self.old.inner) (D.state self.new.inner) (IsErr result) }
        ensures same { (D.state self.old.inner).honest
            → IsLook (D.state self.old.inner) (D.state self.new.inner) }
        ensures bytes { (D.state self.old.inner).honest
            → OnOk result (into.new ≡ sector_at (D.state self.old.inner).reads at) }
        ensures noted { HasNoted self.old self.new (Call.Read at) }
    {
        self.note(Call::Read(at));
        self.inner.read(at, into)
    }

    fn write(&mut self, at: u64, from: &Sector) -> Result<(), DeviceFault>
        requires { at < length (D.state self.old.inner).reads }
        ensures call { AreCalls (D.state self.old.inner) (D.state self.new.inner) (IsErr result) }
        ensures torn { (D.state self.old.inner).honest
            → IsWrite at (D.state self.old.inner) (D.state self.new.inner) }
        ensures written { (D.state self.old.inner).honest
            → OnOk result ((D.state self.new.inner).reads
            ≡ with_sector (D.state self.old.inner).reads at from.now) }
        ensures noted { HasNoted self.old self.new (Call.Write at) }
    {
        self.note(Call::Write(at));
        self.inner.write(at, from)
    }

    fn sync(&mut self) -> Result<(), DeviceFault>
        ensures call { AreCalls (D.state self.old.inner) (D.state self.new.inner) (IsErr result) }
        ensures same { (D.state self.old.inner).honest
            → IsLook (D.state self.old.inner) (D.state self.new.inner) }
        ensures durable { (D.state self.old.inner).honest
            → OnOk result (IsDurable (D.state self.new.inner)) }
        ensures noted { HasNoted self.old self.new Call.Sync }
    {
        self.note(Call::Sync);
        self.inner.sync()
    }

    ghost sound = { λ n honest. D.sound n.inner honest };
}
