//! An output of which it is known whether its reader went away.
use std::io;
use std::io::{ErrorKind, Write};

/// A writer of which is known whether it failed since nobody reads it any more.
#[derive(Drop)]
pub struct WatchedWriter<'a, W: Write> {
    writer: &'a mut W,
    closed: bool,
}

impl<'a, W: Write> WatchedWriter<'a, W> {
    /// A writer that has not failed yet.
    pub fn over(writer: &'a mut W) -> WatchedWriter<'a, W> {
        WatchedWriter {
            writer,
            closed: false,
        }
    }

    /// Whether a call was answered that the reader has closed its end.
    pub fn is_closed(&self) -> bool {
        self.closed
    }

    // Takes note of a call's answer.
    fn note<T>(&mut self, answer: &io::Result<T>) {
        if let Err(error) = answer {
            if error.kind() == ErrorKind::BrokenPipe {
                self.closed = true;
            }
        }
    }
}

impl<W: Write> Write for WatchedWriter<'_, W> {
    fn write(&mut self, buf: &[u8]) -> io::Result<usize> {
        let answer = self.writer.write(buf);
        self.note(&answer);
        answer
    }

    fn flush(&mut self) -> io::Result<()> {
        let answer = self.writer.flush();
        self.note(&answer);
        answer
    }
}
