//! The device of all tests: memory that notes its calls, and fails where its switch says so.
ghost use Rattle.std.specs.Prelude.{◌≡◌, ◌≤◌, IsTrue, IsFalse};
ghost use Rattle.sector_device.specs.Device.{HasCause};
ghost use Rattle.sector_device.specs.Wrapped.{one_more};

use crate::switch::{Asked, Switch};
use device_files::ReadRun;
use sector_device::{Device, DeviceFault, MemoryDevice, Picks, Sector};
use std::alloc::{AllocError, Global};
use std::sync::Arc;

/// How many calls are noted; those behind them are not.
const ROOM: usize = 4_096;

/// What somebody else writes into a sector once it was read.
#[derive(Clone, Copy)]
struct Later {
    at: u64,
    bytes: Sector,
    was_read: bool,
}

impl Later {
    // The sector of that number is read, as these bytes: from the second time on they are those.
    fn pass(&mut self, at: u64, read: &mut Sector) {
        if at != self.at {
            return;
        }
        if self.was_read {
            *read = self.bytes;
        }
        self.was_read = true;
    }
}

/// A device in memory that notes its calls, and fails where its switch says so, without reaching
/// the memory. It isn't honest, since a sector may read otherwise once it was read.
#[derive(Drop)]
pub struct Bench {
    inner: MemoryDevice,
    switch: Arc<Switch>,
    failures: u64,
    calls: Vec<Asked>,
    // Of each sector what stood in it at the last sync, if it is pending.
    before: Vec<Option<Sector>>,
    later: Option<Later>,
}

impl Bench {
    /// A device of so many sectors, all zero.
    pub fn new(alloc: Global, sectors: u64, switch: Arc<Switch>) -> Result<Bench, AllocError> {
        Ok(Bench {
            inner: MemoryDevice::new(alloc, sectors)?,
            switch,
            failures: 0,
            calls: Vec::with_capacity(alloc, ROOM)?,
            before: vec![in alloc; None; sectors as usize]?,
            later: None,
        })
    }

    /// The calls that it has noted.
    pub fn calls(&self) -> &[Asked] {
        self.calls.as_slice()
    }

    /// Forgets the calls that it has noted.
    pub fn forget_calls(&mut self) {
        self.calls.clear();
    }

    /// The bytes of a sector, if there is such a one.
    pub fn sector(&self, at: u64) -> Option<&Sector> {
        if at < self.inner.sectors() {
            Some(self.inner.sector(at))
        } else {
            None
        }
    }

    /// Whether a power loss may change the sector.
    pub fn is_pending(&self, at: u64) -> bool {
        at < self.inner.sectors() && self.inner.pending(at)
    }

    /// What stood in a sector at the last sync, if it is pending.
    pub fn before(&self, at: u64) -> Option<&Sector> {
        self.before.get(at as usize)?.as_ref()
    }

    /// Puts a sector there, as somebody else would: no call is noted, and the sector is durable.
    pub fn put(&mut self, at: u64, bytes: &Sector) -> Result<(), DeviceFault> {
        if at >= self.inner.sectors() {
            return Err(DeviceFault);
        }
        self.inner.write(at, bytes)?;
        self.inner.sync()
    }

    /// From its second reading on, the sector reads as these bytes.
    pub fn put_later(&mut self, at: u64, bytes: &Sector) {
        self.later = Some(Later {
            at,
            bytes: *bytes,
            was_read: false,
        });
    }

    /// Loses power, by these picks. Its switch stays as it is.
    pub fn crash(self, picks: &Picks) -> Bench {
        let Bench {
            inner,
            switch,
            failures,
            calls,
            mut before,
            later,
        } = self;
        before.as_mut_slice().fill(None);
        Bench {
            inner: inner.crash(picks),
            switch,
            failures,
            calls,
            before,
            later,
        }
    }

    // Notes what stands in a sector before it becomes pending.
    fn remember(&mut self, at: u64)
        ensures inner { self.new.inner ≡ self.old.inner }
        ensures failures { self.new.failures ≡ self.old.failures }
    {
        if at >= self.inner.sectors() {
            return;
        }
        if let Some(before) = self.before.get_mut(at as usize) {
            if before.is_none() {
                *before = Some(*self.inner.sector(at));
            }
        }
    }

    // Notes a call, and tells whether it is to fail.
    fn note(&mut self, call: Asked) -> bool
        ensures inner { self.new.inner ≡ self.old.inner }
        ensures failures { self.new.failures ≡ self.old.failures }
    {
        if self.calls.len() < self.calls.capacity() {
            self.calls.push_reserved(call);
        }
        self.switch.fails(call)
    }

    // The same, where one that fails is counted.
    fn fails(&mut self, call: Asked) -> bool
        ensures inner { self.new.inner ≡ self.old.inner }
        ensures passed { IsFalse result → self.new.failures ≡ self.old.failures }
        ensures failed { IsTrue result → self.new.failures ≡ one_more self.old.failures }
        ensures cause { HasCause self.old.failures self.new.failures (IsTrue result) }
        ensures no_fewer { self.old.failures ≤ self.new.failures }
    {
        let fails = self.note(call);
        if fails {
            self.failures = self.failures.saturating_add(1);
        }
        fails
    }
}

impl Device for Bench {
    ghost use Rattle.sector_device.specs.MemoryDevice.{memory_device_state};
    ghost use Rattle.test_words.specs.Bench.{foreign_state};

    ghost state = { λ b. foreign_state (memory_device_state b.inner) b.failures };

    fn sectors(&self) -> u64 {
        self.inner.sectors()
    }

    fn read(&mut self, at: u64, into: &mut Sector) -> Result<(), DeviceFault> {
        if self.fails(Asked::Read(at)) {
            return Err(DeviceFault);
        }
        let answer = self.inner.read(at, into);
        if let Some(later) = &mut self.later {
            later.pass(at, into);
        }
        answer
    }

    fn write(&mut self, at: u64, from: &Sector) -> Result<(), DeviceFault> {
        if self.fails(Asked::Write(at)) {
            return Err(DeviceFault);
        }
        self.remember(at);
        self.inner.write(at, from)
    }

    fn sync(&mut self) -> Result<(), DeviceFault> {
        if self.fails(Asked::Sync) {
            return Err(DeviceFault);
        }
        self.before.as_mut_slice().fill(None);
        self.inner.sync()
    }

    ghost sound = { λ b honest. absurd honest };
}

impl ReadRun for Bench {
    fn read_run(&mut self, at: u64, into: &mut [Sector]) -> Result<(), DeviceFault> {
        if self.note(Asked::Run(at, into.len())) {
            return Err(DeviceFault);
        }
        self.inner.read_run(at, into)
    }
}
