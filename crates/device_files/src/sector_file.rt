ghost use Rattle.std.specs.Prelude.{◌≡◌, ◌*◌, ◌<◌, ◌≤◌, ◌^◌, IsErr};
ghost use Rattle.sector_device.specs.Device.{HasCause};
ghost use Rattle.device_files.specs.RealFile.{FileState, unknown_sectors};

use crate::read_run::ReadRun;
use sector_device::{Device, DeviceFault, SECTOR, Sector};
use std::fs::OpenFile;
use std::io;
use std::marker::Model;
use std::os::unix::fs::FileExt;

/// The sectors of an open file: the system's own calls, with a count of their failures. Contracts
/// know nothing else of the file; it is honest nowhere.
#[derive(Debug, Drop)]
pub struct SectorFile<F: OpenFile + FileExt> {
    file: F,
    sectors: u64,
    failures: u64,
}

impl<F: OpenFile + FileExt> Model for SectorFile<F> {
    ghost Value = { FileState };

    ghost view = { λ f. record { sectors = f.sectors; failures = f.failures } };

    ghost invariant = { λ f. f.sectors * 512 < 2 ^ 63 };
}

// Counts a failure where the system's call failed.
fn counted(failures: &mut u64, outcome: io::Result<()>) -> Result<(), DeviceFault>
    ensures cause { HasCause failures.old failures.new (IsErr result) }
    ensures count { failures.old ≤ failures.new }
{
    match outcome {
        Ok(()) => Ok(()),
        Err(_) => {
            *failures = failures.saturating_add(1);
            Err(DeviceFault)
        }
    }
}

impl<F: OpenFile + FileExt> SectorFile<F> {
    pub(crate) fn new(file: F, sectors: u64) -> SectorFile<F>
        requires { sectors * 512 < 2 ^ 63 }
        ensures sectors { result.sectors ≡ sectors }
        ensures failures { result.failures ≡ 0 }
    {
        SectorFile {
            file,
            sectors,
            failures: 0,
        }
    }
}

impl<F: OpenFile + FileExt> Device for SectorFile<F> {
    ghost state = { unknown_sectors };

    fn sectors(&self) -> u64 {
        self.sectors
    }

    fn read(&mut self, at: u64, into: &mut Sector) -> Result<(), DeviceFault> {
        let outcome = self.file.read_exact_at(into, at * SECTOR as u64);
        counted(&mut self.failures, outcome)
    }

    fn write(&mut self, at: u64, from: &Sector) -> Result<(), DeviceFault> {
        let outcome = self.file.write_all_at(from, at * SECTOR as u64);
        counted(&mut self.failures, outcome)
    }

    fn sync(&mut self) -> Result<(), DeviceFault> {
        let outcome = self.file.sync_data();
        counted(&mut self.failures, outcome)
    }

    ghost sound = { λ f honest. absurd honest };
}

impl<F: OpenFile + FileExt> ReadRun for SectorFile<F> {
    fn read_run(&mut self, at: u64, into: &mut [Sector]) -> Result<(), DeviceFault> {
        let outcome = self
            .file
            .read_exact_at(into.as_flattened_mut(), at * SECTOR as u64);
        outcome.or(Err(DeviceFault))
    }
}
