//! The system's calls on a folder, as those of a folder whose files are devices.
ghost use Rattle.std.specs.Prelude.{◌≡◌, ◌≤◌, IfOk};
ghost use Rattle.sector_device.specs.Device.{HasCause};
ghost use Rattle.device_folder.specs.Answers.{IsFailed};
ghost use Rattle.ledger_folder.specs.SystemFolder.{unknown_folder};

use crate::folder::LockedFolder;
use device_files::{Creation, DeviceNeeds, FileDevice, FileFault, LockedFile};
use device_folder::{Folder, FolderFault};
use std::alloc::AllocError;
use std::fs::{File, Files};
use std::io::ErrorKind;
use std::{fs, io};

/// The files of a folder that is open and locked. Contracts know nothing of what it holds; it is
/// honest nowhere.
#[derive(Drop)]
pub struct SystemFolder<'f, 'a, R> {
    rt: &'f R,
    folder: &'f LockedFolder<'a>,
    failures: u64,
}

impl<'f, 'a, R: Files<File = File> + AllocGlobal> SystemFolder<'f, 'a, R> {
    /// Of that folder.
    pub fn new(rt: &'f R, folder: &'f LockedFolder<'a>) -> SystemFolder<'f, 'a, R>
        ensures { result.failures ≡ 0 }
    {
        SystemFolder {
            rt,
            folder,
            failures: 0,
        }
    }

    fn path_of(&self, name: &str) -> Result<String, AllocError> {
        let folder = self.folder.path;
        format!(in self.rt.alloc(); "{folder}/{name}")
    }

    // A new file, by the calls of every opening. What has the name already, or was filled by
    // somebody else since, stays as it is.
    fn made(&self, name: &str, sectors: u64) -> Result<FileDevice, FolderFault>
        ensures { IfOk result (λ device. device.inner.sectors ≡ sectors) }
    {
        let path = self.path_of(name)?;
        let file = self
            .locked(path.as_str(), Creation::IfMissing)
            .map_err(of_making)?;
        if file.made().is_none() || file.sectors() > 0 {
            return Err(FolderFault::Exists);
        }
        self.device(file, sectors).map_err(of_making)
    }

    fn opened(&self, name: &str) -> Result<FileDevice, FolderFault> {
        let path = self.path_of(name)?;
        let file = self.locked(path.as_str(), Creation::Never)?;
        self.device(file, 0)
    }

    fn locked<'p>(
        &self,
        path: &'p str,
        making: Creation,
    ) -> Result<LockedFile<'p, File>, FolderFault> {
        LockedFile::open(self.rt, self.rt.alloc(), path, making).map_err(fault_of)
    }

    fn device(&self, file: LockedFile<'_, File>, sectors: u64) -> Result<FileDevice, FolderFault>
        ensures { file.entry.sectors ≡ 0 → IfOk result (λ device. device.inner.sectors ≡ sectors) }
    {
        let wanted = DeviceNeeds {
            sectors,
            overwrite: false,
        };
        file.into_device(self.rt, wanted).map_err(fault_of)
    }

    fn renamed(&self, from: &str, to: &str) -> Result<(), FolderFault> {
        let (from, to) = (self.path_of(from)?, self.path_of(to)?);
        fs::rename(self.rt, from.as_str(), to.as_str()).map_err(fault_of_call)
    }

    fn removed(&self, name: &str) -> Result<(), FolderFault> {
        let path = self.path_of(name)?;
        fs::remove_file(self.rt, path.as_str()).map_err(fault_of_call)
    }
}

impl<R: Files<File = File> + AllocGlobal> Folder for SystemFolder<'_, '_, R> {
    type File = FileDevice;

    ghost state = { λ folder. unknown_folder folder.failures };

    fn make(&mut self, name: &str, sectors: u64) -> Result<FileDevice, FolderFault> {
        let outcome = self.made(name, sectors);
        counted(&mut self.failures, outcome)
    }

    fn open(&mut self, name: &str) -> Result<FileDevice, FolderFault> {
        let outcome = self.opened(name);
        counted(&mut self.failures, outcome)
    }

    fn keep(&mut self, _file: FileDevice) -> Result<(), FolderFault> {
        Ok(())
    }

    fn rename(&mut self, from: &str, to: &str) -> Result<(), FolderFault> {
        let outcome = self.renamed(from, to);
        counted(&mut self.failures, outcome)
    }

    fn remove(&mut self, name: &str) -> Result<(), FolderFault> {
        let outcome = self.removed(name);
        counted(&mut self.failures, outcome)
    }

    fn exists(&self, name: &str) -> Result<bool, FolderFault> {
        let path = self.path_of(name)?;
        match fs::symlink_metadata(self.rt, path.as_str()) {
            Ok(_) => Ok(true),
            Err(error) if error.kind() == ErrorKind::NotFound => Ok(false),
            Err(error) => Err(fault_of_call(error)),
        }
    }

    fn sync(&mut self) -> Result<(), FolderFault> {
        let outcome = self.folder.sync().map_err(fault_of_call);
        counted(&mut self.failures, outcome)
    }

    ghost sound = { λ folder honest. absurd honest };
}

// Counts a failure where the system's call failed.
fn counted<T>(failures: &mut u64, outcome: Result<T, FolderFault>) -> Result<T, FolderFault>
    ensures same { result ≡ outcome }
    ensures cause { HasCause failures.old failures.new (IsFailed result) }
    ensures count { failures.old ≤ failures.new }
{
    if matches!(outcome, Err(FolderFault::Failed)) {
        *failures = failures.saturating_add(1);
    }
    outcome
}

// What a fault of a file is to its folder.
fn fault_of(fault: FileFault) -> FolderFault {
    match fault {
        FileFault::Memory => FolderFault::Memory,
        FileFault::Missing => FolderFault::Missing,
        FileFault::InUse => FolderFault::InUse,
        _ => FolderFault::Failed,
    }
}

// A new file has no other.
fn of_making(fault: FolderFault) -> FolderFault {
    match fault {
        FolderFault::Memory => FolderFault::Memory,
        _ => FolderFault::Failed,
    }
}

fn fault_of_call(error: io::Error) -> FolderFault {
    fault_of(FileFault::from(error))
}
