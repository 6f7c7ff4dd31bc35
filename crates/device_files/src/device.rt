ghost use Rattle.std.specs.Prelude.{◌≡◌, ◌<◌, ◌≤◌, false, IfOk};
ghost use Rattle.device_files.specs.ReadBuffer.{IsEmpty};
ghost use Rattle.device_files.specs.Opened.{IsJustOpened};

use crate::buffer::ReadBuffer;
use crate::device_file::DeviceFile;
use crate::fail_stop::FailStop;
use crate::locked_file::{DeviceNeeds, LockedFile};
use crate::opening::{Creation, check_length};
use crate::read_ahead::ReadAhead;
use crate::refusal::{FileFault, FileRefusal};
use crate::sector_file::SectorFile;
use std::alloc::Global;
use std::fs::{File, Files, OpenFile};
use std::os::unix::fs::FileExt;

/// A device on a file. Nothing is promised of what the file holds.
///
/// Reads go through a buffer of 128 KiB. A write is one positioned write of 512 bytes, a sync waits
/// until the system says that the file's data is on the disk, and after a failed sync every call
/// fails. No call takes memory.
pub type FileDevice = DeviceOn<File>;

/// The same on whatever files these are.
pub type DeviceOn<F> = FailStop<ReadAhead<SectorFile<F>>>;

impl<F: DeviceFile + Drop> DeviceOn<F> {
    /// Opens the file, makes it if it isn't there, and locks it for as long as the device has it.
    /// If it has fewer sectors than these, zero sectors are written at its end until it has them;
    /// one that is longer stays as it is. Then it is synced, and the folder that it lies in, unless
    /// that may not be read and the file was there. A file that this opening made and then can't
    /// grow is removed.
    ///
    /// A disk, which is a block device, has to have that many sectors, and is neither grown nor
    /// cut. It is refused if it is in use, and unless it begins as a ledger does, or its first 256
    /// sectors are zeros.
    ///
    /// The lock keeps out those alone who ask for it too: nobody else may write the file while the
    /// device is in use.
    pub fn open<R: Files<File = F>>(
        rt: &R,
        alloc: Global,
        path: &str,
        sectors: u64,
    ) -> Result<DeviceOn<F>, FileRefusal>
        ensures enough { IfOk result (λ device. sectors ≤ device.inner.sectors) }
        ensures opened { IfOk result IsJustOpened }
    {
        Ok(Self::open_with_cause(rt, alloc, path, sectors)?)
    }

    /// As [`open`](FileDevice::open), and says why a file or a disk is refused.
    pub fn open_with_cause<R: Files<File = F>>(
        rt: &R,
        alloc: Global,
        path: &str,
        sectors: u64,
    ) -> Result<DeviceOn<F>, FileFault>
        ensures enough { IfOk result (λ device. sectors ≤ device.inner.sectors) }
        ensures opened { IfOk result IsJustOpened }
    {
        check_length(sectors)?;
        let file = LockedFile::open(rt, alloc, path, Creation::IfMissing)?;
        let wanted = DeviceNeeds {
            sectors,
            overwrite: false,
        };
        file.into_device(rt, wanted)
    }

    /// Opens a disk whatever it holds, which the device may then write over. All else is refused,
    /// and not made.
    pub fn overwrite<R: Files<File = F>>(
        rt: &R,
        alloc: Global,
        path: &str,
        sectors: u64,
    ) -> Result<DeviceOn<F>, FileFault>
        ensures enough { IfOk result (λ device. sectors ≤ device.inner.sectors) }
        ensures opened { IfOk result IsJustOpened }
    {
        let file = LockedFile::open(rt, alloc, path, Creation::Never)?;
        if !file.is_disk() {
            return Err(FileFault::NoDisk);
        }
        let wanted = DeviceNeeds {
            sectors,
            overwrite: true,
        };
        file.into_device(rt, wanted)
    }
}

/// A device on an open file.
pub(crate) fn device_over<F: OpenFile + FileExt>(
    file: SectorFile<F>,
    buffer: ReadBuffer,
) -> DeviceOn<F>
    requires { IsEmpty buffer }
    ensures { result ≡ record { inner = file; stopped = false; refused = 0 } }
{
    FailStop::new(ReadAhead::new(file, buffer))
}
