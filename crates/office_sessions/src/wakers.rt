//! How a counter's threads are woken.
use std::sync::atomic::{AtomicBool, AtomicU64, Ordering};
use std::thread::Parker;

/// Whom the dispatcher wakes at a counter, and how far its threads are.
#[derive(Drop)]
pub(crate) struct Wakers {
    /// The reader waits here while there is no place for what it has read.
    pub reader: Parker,
    /// The writer waits here while there is nothing to write.
    pub writer: Parker,
    // How many responses the dispatcher gave, and how many the writer is done with.
    given: AtomicU64,
    written: AtomicU64,
    // Whether the reader has handed on all that it has read.
    has_handed_on: AtomicBool,
}

impl Wakers {
    pub(crate) fn new() -> Wakers {
        Wakers {
            reader: Parker::new(),
            writer: Parker::new(),
            given: AtomicU64::new(0),
            written: AtomicU64::new(0),
            has_handed_on: AtomicBool::new(true),
        }
    }

    /// A response is given.
    pub(crate) fn note_given(&self) {
        self.given.fetch_add(1, Ordering::SeqCst);
        self.writer.unpark();
    }

    /// The writer is done with so many responses.
    pub(crate) fn note_written(&self, count: u64) {
        self.written.fetch_add(count, Ordering::SeqCst);
    }

    /// How many of the responses that were given the writer isn't done with.
    pub(crate) fn unwritten(&self) -> u64 {
        let written = self.written.load(Ordering::SeqCst);
        let given = self.given.load(Ordering::SeqCst);
        given.saturating_sub(written)
    }

    /// The reader has handed on all that it has read, or has read something.
    pub(crate) fn note_handed_on(&self, has_handed_on: bool) {
        self.has_handed_on.store(has_handed_on, Ordering::SeqCst);
    }

    /// Whether the reader has handed on all that it has read.
    pub(crate) fn has_handed_on(&self) -> bool {
        self.has_handed_on.load(Ordering::SeqCst)
    }
}
