use crate::disk::Disk;
use crate::disk_tables::DeviceNumber;
use std::fs::{File, Metadata, OpenFile};
use std::io;
use std::io::{Seek, SeekFrom};
use std::os::fd::AsRawFd;
use std::os::unix::fs::{FileExt, FileTypeExt, MetadataExt};

/// A file as an opening needs it: what `File` does of its own, so that a test can stand in for it.
pub trait DeviceFile: OpenFile + FileExt + AsRawFd {
    /// Locks the file, if nobody else has it, for as long as it is open.
    fn try_lock(&self) -> io::Result<()>;

    /// Keeps off those who would lock it so, for as long as it is open. Others may do the same.
    fn try_lock_shared(&self) -> io::Result<()>;

    /// The block device that it is, if it is one. Its metadata have no length of it: that is where
    /// its end is.
    fn disk(&self, metadata: &Metadata) -> io::Result<Option<Disk>>;
}

impl DeviceFile for File {
    fn try_lock(&self) -> io::Result<()> {
        File::try_lock(self).map_err(io::Error::from)
    }

    fn try_lock_shared(&self) -> io::Result<()> {
        File::try_lock_shared(self).map_err(io::Error::from)
    }

    fn disk(&self, metadata: &Metadata) -> io::Result<Option<Disk>> {
        if !metadata.file_type().is_block_device() {
            return Ok(None);
        }
        let mut file = self;
        let length = file.seek(SeekFrom::End(0))?;
        let number = DeviceNumber::from(metadata.rdev());
        Ok(Some(Disk { length, number }))
    }
}
