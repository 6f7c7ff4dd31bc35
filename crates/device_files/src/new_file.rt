//! Which file it is, and taking back one that was made.
use std::fs;
use std::fs::{Files, Metadata};
use std::os::unix::fs::MetadataExt;

/// Which file it is, whatever its path.
#[derive(Clone, Copy, Debug, PartialEq, Eq)]
pub struct FileNumber {
    device: u64,
    inode: u64,
}

impl FileNumber {
    /// Of the file that this was found of.
    pub fn of(metadata: &Metadata) -> FileNumber {
        FileNumber {
            device: metadata.dev(),
            inode: metadata.ino(),
        }
    }
}

/// A file that an opening made.
#[derive(Clone, Copy, Debug)]
pub struct NewFile<'a> {
    pub(crate) path: &'a str,
    pub(crate) number: FileNumber,
}

impl NewFile<'_> {
    /// Removes it, if its name is still its own: it is to be locked until then. What becomes of
    /// this isn't told.
    pub fn remove<R: Files>(self, rt: &R) {
        if let Ok(named) = fs::symlink_metadata(rt, self.path) {
            if FileNumber::of(&named) == self.number {
                let _ = fs::remove_file(rt, self.path);
            }
        }
    }
}
