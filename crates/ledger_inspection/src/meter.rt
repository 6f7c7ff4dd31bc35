//! What is told beside the printing: on a terminal how far it is, and that a ledger isn't locked.
use device_files::LockMode;
use ledger_printing::Progress;
use std::alloc::Global;
use std::io::Write;
use text_streams::write_all;

/// After how many records the line is written again.
const STEP: u64 = 65_536;

/// Tells how far the printing of a journal is, on one line that is written over, and taken away at
/// the end. A fault of its writer is ignored.
#[derive(Drop)]
pub(crate) struct Meter<'a, E: Write> {
    alloc: Global,
    errors: &'a mut E,
    is_shown: bool,
}

impl<'a, E: Write> Meter<'a, E> {
    /// A meter that is shown, or isn't.
    pub(crate) fn over(alloc: Global, errors: &'a mut E, is_shown: bool) -> Meter<'a, E> {
        Meter {
            alloc,
            errors,
            is_shown,
        }
    }

    /// Tells that what is at the path isn't locked, if it isn't.
    pub(crate) fn tell_locking(&mut self, path: &str, locking: LockMode) {
        if locking != LockMode::Unlocked {
            return;
        }
        let _ = match format!(in self.alloc;
            "{path}: it isn't locked, so what is printed may be torn\n"
        ) {
            Ok(notice) => write_all(self.errors, notice.as_bytes()),
            Err(_) => write_all(self.errors, b"out of memory\n"),
        };
    }

    /// Takes the line away.
    pub(crate) fn end(self) {
        if self.is_shown {
            let _ = write_all(self.errors, b"\r\x1b[K");
        }
    }
}

impl<E: Write> Progress for Meter<'_, E> {
    fn reached(&mut self, records: u64, all: u64) {
        if !self.is_shown || records % STEP != 0 {
            return;
        }
        if let Ok(line) = format!(in self.alloc; "\r{records} of {all} records") {
            let _ = write_all(self.errors, line.as_bytes());
        }
    }
}
