//! Sectors in a file.
//!
//! `FileDevice` is a device on a file of the system, or on a block device, here called a disk. No
//! contract speaks of what these hold. What is promised is that every call is safe and ends, that
//! failures are counted, and that after a failed sync every later call fails. `ReadAhead` is the
//! buffer that its reads go through: over any device it gives what that device gives.
//!
//! The test `a_file_is_made_and_grown_and_never_cut` in `src/files.rt` of the crate `test_examples`
//! is an example.
#![tactic(auto)]

mod buffer;
mod device;
mod device_file;
mod disk;
mod disk_tables;
mod fail_stop;
mod growth;
mod locked_file;
mod looking;
mod new_file;
mod opening;
mod read_ahead;
mod read_only;
mod read_run;
mod refusal;
mod sector_file;

pub use buffer::ReadBuffer;
pub use device::{DeviceOn, FileDevice};
pub use device_file::DeviceFile;
pub use disk::Disk;
pub use disk_tables::DeviceNumber;
pub use fail_stop::FailStop;
pub use locked_file::{DeviceNeeds, LockedFile};
pub use looking::{LockMode, ReadOnlyFile, ReadOnlyOn};
pub use new_file::{FileNumber, NewFile};
pub use opening::{Creation, clear_of_streams};
pub use read_ahead::ReadAhead;
pub use read_only::ReadOnly;
pub use read_run::ReadRun;
pub use refusal::{FileFault, FileRefusal};
pub use sector_device::{Device, DeviceFault, SECTOR, Sector};
pub use sector_file::SectorFile;
