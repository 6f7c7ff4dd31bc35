ghost use Rattle.std.specs.Prelude.{◌≡◌, ◌⊎◌, ◌<◌, ◌≤◌, ◌↔◌, [], ◌∷◌, ℕ, replicate, reverse};
ghost use Rattle.std.specs.Prelude.{length, IsTrue, IsOk, IsErr, IfOk, OnOk, OnErr};
ghost use Rattle.sector_device.specs.Image.{IsImage, sector_at, with_sector};
ghost use Rattle.sector_device.specs.Device.{HasCause, AreCalls};
ghost use Rattle.sector_device.specs.Crash.{IsLook, IsWrite, IsDurable};
ghost use Rattle.sector_device.specs.Memory.{IsPending};

use crate::{Device, DeviceFault, SECTOR, Sector};
use std::alloc::{AllocError, Global};
use std::fmt;
use std::snapshot::Snapshot as Ghost;

/// An entry of the record that a memory device keeps of its calls.
#[derive(Drop)]
enum Call {
    /// A write to sector `at`, and the bytes that stood there before, which contracts alone see.
    Wrote { at: u64, before: Ghost<Sector> },
    Synced,
}

impl fmt::Debug for Call {
    fn fmt<W: fmt::Write>(&self, f: &mut fmt::Formatter<W>) -> fmt::Result {
        match self {
            Call::Wrote { at, .. } => write!(f, "Wrote({at})"),
            Call::Synced => f.write_str("Synced"),
        }
    }
}

/// What a power loss is to leave in sectors that are pending: sector numbers with their bytes. The
/// last pick for a sector counts, and picks for sectors that aren't pending are ignored.
#[derive(Debug, Drop)]
pub struct Picks {
    /// The number of a sector, counted from 0, and the bytes that it is to have.
    pub list: Vec<(u64, Sector)>,
}

/// A device in memory, which is honest: it keeps every fact of `Device`.
///
/// It remembers each write and sync that answered `Ok`, in a few bytes each, as the loss model has
/// to see what a crash at an earlier moment might have left. Its reads never fail. A write or a
/// sync fails only if that record can't grow, and then changes no byte and no pending sector.
#[derive(Debug, Drop)]
pub struct MemoryDevice {
    sectors: Vec<Sector>,
    calls: Vec<Call>,
    faults: u64,
    number: u64,
    ghost whole: { IsImage sectors.items },
}

impl MemoryDevice {
    ghost use Rattle.sector_device.specs.MemoryDevice.{memory_device_state, calls_of, IsPendingIn};
    ghost use Rattle.sector_device.specs.MemoryDevice.{HasPicks, with_number};

    /// A device of so many sectors, all zero, with nothing pending.
    ///
    /// # Errors
    /// Out of memory.
    pub fn new(alloc: Global, sectors: u64) -> Result<MemoryDevice, AllocError>
        ensures zero { IfOk result (λ device.
            (memory_device_state device).reads ≡ replicate sectors (replicate 512 0)) }
        ensures durable { IfOk result (λ device. IsDurable (memory_device_state device)) }
        ensures settled { IfOk result (λ device. (at : ℕ) → IsPendingIn device at → ⊥) }
        ensures no_failure { IfOk result (λ device. (memory_device_state device).faults ≡ 0) }
        ensures number { IfOk result (λ device. (memory_device_state device).number ≡ 0) }
    {
        Ok(MemoryDevice {
            sectors: vec![in alloc; [0; SECTOR]; sectors as usize]?,
            calls: Vec::new(alloc),
            faults: 0,
            number: 0,
        })
    }

    /// The same device with another number.
    pub fn numbered(mut self, number: u64) -> MemoryDevice
        ensures { result ≡ with_number self number }
    {
        self.number = number;
        self
    }

    /// The bytes of a sector, as a read gives them.
    pub fn sector(&self, at: u64) -> &Sector
        requires { at < length (memory_device_state self.now).reads }
        ensures { result.now ≡ sector_at (memory_device_state self.now).reads at }
    {
        &self.sectors[at as usize]
    }

    /// Whether a write to the sector answered `Ok` since the last sync that answered `Ok`.
    pub fn pending(&self, at: u64) -> bool
        requires { at < length (memory_device_state self.now).reads }
        ensures { IsTrue result ↔ IsPendingIn self.now at }
    {
        is_pending(&self.calls, at)
    }

    // Adds an entry to the record, or counts a failure where it can't grow.
    fn record(&mut self, call: Call) -> Result<(), DeviceFault>
        ensures sectors { self.new.sectors.items ≡ self.old.sectors.items }
        ensures ok { OnOk result ((calls_of self.new ≡ call ∷ calls_of self.old)
            × (self.new.faults ≡ self.old.faults)) }
        ensures err { OnErr result (calls_of self.new ≡ calls_of self.old) }
        ensures cause { HasCause self.old.faults self.new.faults (IsErr result) }
        ensures count { self.old.faults ≤ self.new.faults }
        ensures number { self.new.number ≡ self.old.number }
    {
        if self.calls.push(call).is_err() {
            self.faults = self.faults.saturating_add(1);
            return Err(DeviceFault);
        }
        Ok(())
    }

    /// Loses power. A pending sector takes the bytes of its last pick, or without one keeps what
    /// reads give. Afterwards nothing is pending.
    pub fn crash(mut self, picks: &Picks) -> MemoryDevice
        ensures picked { HasPicks self picks.now.list.items (memory_device_state result).reads }
        ensures lawful { (memory_device_state self).may_leave (memory_device_state result).reads }
        ensures durable { IsDurable (memory_device_state result) }
        ensures settled { (at : ℕ) → IsPendingIn result at → ⊥ }
        ensures faults { (memory_device_state result).faults ≡ (memory_device_state self).faults }
        ensures number { (memory_device_state result).number ≡ (memory_device_state self).number }
    {
        for pick in &picks.list {
            self.take_pick(pick);
        }
        self.calls.clear();
        self
    }

    // Puts the bytes of the pick where its sector is pending.
    fn take_pick(&mut self, pick: &(u64, Sector))
        ensures picked { HasPicks self.old (pick.now ∷ []) (memory_device_state self.new).reads }
        ensures calls { calls_of self.new ≡ calls_of self.old }
        ensures faults { self.new.faults ≡ self.old.faults }
        ensures number { self.new.number ≡ self.old.number }
    {
        let (at, bytes) = pick;
        if *at < self.sectors() && is_pending(&self.calls, *at) {
            self.put(*at as usize, bytes);
        }
    }

    fn put(&mut self, at: usize, bytes: &Sector)
        requires { at < length (memory_device_state self.old).reads }
        ensures put { (memory_device_state self.new).reads
            ≡ with_sector (memory_device_state self.old).reads at bytes.now }
        ensures calls { calls_of self.new ≡ calls_of self.old }
        ensures faults { self.new.faults ≡ self.old.faults }
        ensures number { self.new.number ≡ self.old.number }
    {
        self.sectors[at] = *bytes;
    }
}

impl Device for MemoryDevice {
    ghost use Rattle.sector_device.specs.MemoryDevice.{memory_device_state, IsPendingIn};
    ghost use Rattle.sector_device.specs.MemoryDevice.{KeepsPending};
    ghost use Rattle.sector_device.specs.MemoryLaws.{memory_sound};

    ghost state = { memory_device_state };

    fn sectors(&self) -> u64 {
        self.sectors.len() as u64
    }

    fn read(&mut self, at: u64, into: &mut Sector) -> Result<(), DeviceFault>
        requires { at < length (memory_device_state self.old).reads }
        ensures call { AreCalls (memory_device_state self.old) (memory_device_state self.new)
            (IsErr result) }
        ensures same { (memory_device_state self.old).honest
            → IsLook (memory_device_state self.old) (memory_device_state self.new) }
        ensures bytes { (memory_device_state self.old).honest
            → OnOk result (into.new ≡ sector_at (memory_device_state self.old).reads at) }
        ensures never_fails { IsOk result }
        ensures pending { KeepsPending self.old self.new }
    {
        *into = self.sectors[at as usize];
        Ok(())
    }

    fn write(&mut self, at: u64, from: &Sector) -> Result<(), DeviceFault>
        requires { at < length (memory_device_state self.old).reads }
        ensures call { AreCalls (memory_device_state self.old) (memory_device_state self.new)
            (IsErr result) }
        ensures torn { (memory_device_state self.old).honest
            → IsWrite at (memory_device_state self.old) (memory_device_state self.new) }
        ensures written { (memory_device_state self.old).honest
            → OnOk result ((memory_device_state self.new).reads
            ≡ with_sector (memory_device_state self.old).reads at from.now) }
        ensures pending { OnOk result ((sector : ℕ) → IsPendingIn self.new sector
            ↔ ((at ≡ sector) ⊎ IsPendingIn self.old sector)) }
        ensures unwritten { OnErr result ((memory_device_state self.new).reads
            ≡ (memory_device_state self.old).reads) }
        ensures not_pending { OnErr result (KeepsPending self.old self.new) }
    {
        let before = Ghost::of(&self.sectors[at as usize]);
        self.record(Call::Wrote { at, before })?;
        self.put(at as usize, from);
        Ok(())
    }

    fn sync(&mut self) -> Result<(), DeviceFault>
        ensures call { AreCalls (memory_device_state self.old) (memory_device_state self.new)
            (IsErr result) }
        ensures same { (memory_device_state self.old).honest
            → IsLook (memory_device_state self.old) (memory_device_state self.new) }
        ensures durable { (memory_device_state self.old).honest
            → OnOk result (IsDurable (memory_device_state self.new)) }
        ensures settled { OnOk result ((sector : ℕ) → IsPendingIn self.new sector → ⊥) }
        ensures still_pending { OnErr result (KeepsPending self.old self.new) }
    {
        self.record(Call::Synced)?;
        Ok(())
    }

    ghost sound = { λ device _. memory_sound device };
}

// Whether a write to the sector stands in the record after the last sync.
fn is_pending(calls: &[Call], at: u64) -> bool
    ensures { IsTrue result ↔ IsPending (reverse calls.now) at }
{
    let mut earlier = calls;
    while let [before @ .., last] = earlier {
        match last {
            Call::Synced => return false,
            Call::Wrote { at: place, .. } => {
                if *place == at {
                    return true;
                }
            }
        }
        earlier = before;
    }
    false
}
