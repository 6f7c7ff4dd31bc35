//! A folder of files that are devices, and what a crash may leave of its names and of their bytes.
//!
//! The trait `Folder` says what is promised: which file each name stands for, what each file reads
//! as, what a crash now may leave of either, and what a crash at some earlier moment might have
//! left, before, within or after each call. `MemoryFolder` keeps all of it and loses power on
//! demand. `put_file` makes a file in any folder, whole or not at all.
#![tactic(auto)]

mod folder;
mod loss;
mod memory;
mod names;
mod put;

pub use folder::{Folder, FolderFault};
pub use loss::{FileLeft, Loss};
pub use memory::{MemoryFile, MemoryFolder};
pub use names::NameLeft;
pub use put::{Content, PutFault, put_file};
