ghost use Rattle.std.specs.Prelude.{◌≡◌, ◌+◌, ◌-◌, ◌<◌, ◌≤◌, ◌↔◌, length, vec_len, IsTrue, IfOk};
ghost use Rattle.std.specs.Prelude.{OnOk, OnErr};
ghost use Rattle.sector_device.specs.Image.{sector_at};
ghost use Rattle.sector_device.specs.Device.{AreCalls};
ghost use Rattle.sector_device.specs.Crash.{IsLook};
ghost use Rattle.device_files.specs.Run.{Shows};

use crate::read_run::ReadRun;
use sector_device::{DeviceFault, SECTOR, Sector};
use std::alloc::{AllocError, Global};

/// How many sectors are read in one call: 128 KiB.
const SPAN: usize = 256;

/// How many of them stand before the one that was asked for, since callers go a step back at times.
const BEFORE: u64 = 8;

/// Room for the 256 sectors that a `ReadAhead` reads in one call.
#[derive(Drop)]
#[derive_where(Debug)]
pub struct ReadBuffer {
    #[derive_where(skip)]
    sectors: Vec<Sector>,
    first: u64,
    held: usize,
    ghost room: { vec_len sectors ≡ 256 },
    ghost within: { held ≤ 256 },
}

impl ReadBuffer {
    ghost use Rattle.device_files.specs.ReadBuffer.{IsEmpty, Holds, Mirrors};

    /// An empty buffer, with all of its memory.
    ///
    /// # Errors
    /// Out of memory.
    pub fn new(alloc: Global) -> Result<ReadBuffer, AllocError>
        ensures { IfOk result IsEmpty }
    {
        Ok(ReadBuffer {
            sectors: vec![in alloc; [0; SECTOR]; SPAN]?,
            first: 0,
            held: 0,
        })
    }

    pub(crate) fn holds(&self, at: u64) -> bool
        ensures { IsTrue result ↔ Holds self.now at }
    {
        at >= self.first && at - self.first < self.held as u64
    }

    pub(crate) fn sector(&self, at: u64) -> &Sector
        requires { Holds self.now at }
        ensures { result.now ≡ sector_at self.now.sectors.items (at - self.now.first) }
    {
        &self.sectors[(at - self.first) as usize]
    }

    pub(crate) fn empty(&mut self)
        ensures { IsEmpty self.new }
    {
        self.held = 0;
    }

    /// Reads the sectors round one. After a fault it is empty.
    pub(crate) fn fill<D: ReadRun>(&mut self, device: &mut D, at: u64) -> Result<(), DeviceFault>
        requires { at < length (D.state device.old).reads }
        ensures call { AreCalls (D.state device.old) (D.state device.new) ⊥ }
        ensures same { (D.state device.old).honest
            → IsLook (D.state device.old) (D.state device.new) }
        ensures holds { OnOk result (Holds self.new at) }
        ensures mirrors { (D.state device.old).honest
            → OnOk result (Mirrors self.new (D.state device.old).reads) }
        ensures err { OnErr result (IsEmpty self.new) }
    {
        self.held = 0;
        let first = at.saturating_sub(BEFORE);
        let count = (device.sectors() - first).min(SPAN as u64) as usize;
        read_front(device, first, self.sectors.as_mut_slice(), count)?;
        self.first = first;
        self.held = count;
        Ok(())
    }
}

// Reads into the first so many of these sectors.
fn read_front<D: ReadRun>(
    device: &mut D,
    at: u64,
    sectors: &mut [Sector],
    count: usize,
) -> Result<(), DeviceFault>
    requires room { count ≤ length sectors.old }
    requires there { at + count ≤ length (D.state device.old).reads }
    ensures call { AreCalls (D.state device.old) (D.state device.new) ⊥ }
    ensures same { (D.state device.old).honest → IsLook (D.state device.old) (D.state device.new) }
    ensures bytes { (D.state device.old).honest
        → OnOk result (Shows sectors.new count (D.state device.old).reads at) }
{
    device.read_run(at, &mut sectors[..count])
}
