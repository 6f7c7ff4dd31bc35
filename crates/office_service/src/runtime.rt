//! What an office needs of the system.
use std::fs::{File, Files};
use std::sync::Wait;
use std::thread::Threads;
use std::time::Clock;

/// A runtime that an office is kept open on: it has files, memory, threads and a clock, it may
/// wait, and each thread can have a copy of it.
pub trait Runtime: Files<File = File>
    + AllocGlobal
    + Threads
    + Wait
    + Clock
    + Sync
    + Send
    + Clone
    + Drop
    + 'static {}

impl<
    R: Files<File = File>
        + AllocGlobal
        + Threads
        + Wait
        + Clock
        + Sync
        + Send
        + Clone
        + Drop
        + 'static,
> Runtime for R {}
