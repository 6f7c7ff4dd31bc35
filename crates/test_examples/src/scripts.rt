//! Scripts, and what they print. Those that are nothing but compared with all that they print stand
//! in `checks/scripts`.
ghost use Rattle.sector_device.specs.MemoryDevice.{memory_device_state};
ghost use Rattle.sector_device.specs.MemoryLaws.{memory_sound};

use crate::scenes::needed;
use front_scripts::{Device, MemoryDevice, PowerLoss, run_script};
use sector_device::{DeviceFault, Sector};
use std::alloc::Global;
use std::sync::Arc;
use std::sync::atomic::{AtomicU64, Ordering};

// A device that counts how often it lost its power.
#[derive(Drop)]
struct Counted {
    inner: MemoryDevice,
    losses: Arc<AtomicU64, Global>,
}

impl Device for Counted {
    ghost state = { λ counted. memory_device_state counted.inner };

    fn sectors(&self) -> u64 {
        self.inner.sectors()
    }

    fn read(&mut self, at: u64, into: &mut Sector) -> Result<(), DeviceFault> {
        self.inner.read(at, into)
    }

    fn write(&mut self, at: u64, from: &Sector) -> Result<(), DeviceFault> {
        self.inner.write(at, from)
    }

    fn sync(&mut self) -> Result<(), DeviceFault> {
        self.inner.sync()
    }

    ghost sound = { λ counted _. memory_sound counted.inner };
}

impl PowerLoss for Counted {
    fn lose_power(self, alloc: Global) -> Self {
        let Counted { inner, losses } = self;
        losses.fetch_add(1, Ordering::SeqCst);
        Counted {
            inner: inner.lose_power(alloc),
            losses,
        }
    }
}

const DEPOSIT: &str =
    "format 4\nopen 3 000 100\npost 0 deposit 1 500\nturn 0\nbalances\ncrash\nopen 3 111 110\nbalances\n";

const DEPOSIT_PRINTS: &str =
    "formatted 4\nopened 3 next 0 total 0\nheld 0 1\nturn 0 station 0 Bottom posted 0\nentry 0 ok\naccount 1 500\ntotal 500\ncrashed\nopened 3 next 1 total 500\naccount 1 500\ntotal 500\n";

// The power is cut once, and by the line `crash` alone.
#[test]
fn a_deposit_survives_a_power_loss(rt: HostRuntime) {
    let alloc = rt.alloc();
    let losses = needed(&rt, Arc::new(alloc, AtomicU64::new(0)));
    let device = Counted {
        inner: needed(&rt, MemoryDevice::new(alloc, 64)),
        losses: needed(&rt, Arc::try_clone(&losses)),
    };
    let (mut reader, mut output) = (DEPOSIT.as_bytes(), Vec::new(alloc));
    needed(
        &rt,
        run_script(&rt, alloc, &mut reader, &mut output, device),
    );
    assert!(rt; output.as_slice() == DEPOSIT_PRINTS.as_bytes());
    assert!(rt; losses.load(Ordering::SeqCst) == 1);
}
