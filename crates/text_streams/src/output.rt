//! Output that is gathered, and handed to a writer in large pieces.
ghost use Rattle.std.specs.Prelude.{◌≡◌, ℕ, ◌<◌, ◌≤◌, [], ◌∷◌, ◌++◌, take, length, Some, IfOk};
ghost use Rattle.std.specs.Prelude.{IfSome, OnOk, OnErr};
ghost use Rattle.std.specs.Io.KnownBytes.{Appends, Keeps};
ghost use Rattle.text_streams.specs.Output.{AppendsPart};

use crate::faults::StreamFault;
use std::alloc::{AllocError, Global};
use std::io::Write;
use std::{fmt, io};
use thiserror::Error;

/// How many calls of a writer in a row may be interrupted: the first and those that try it again.
const TRIES: u32 = 1_001;

/// How many bytes are gathered before they are handed on.
const FULL: usize = 65_536;

/// The writer failed: it took no byte, was interrupted too often, or met another fault.
#[derive(Clone, Copy, Debug, PartialEq, Eq, Error)]
#[error("write failed")]
pub struct WriteFault;

impl From<WriteFault> for StreamFault {
    ghost use Rattle.std.specs.Prelude.{◌≡◌};
    ghost use Rattle.text_streams.specs.declared.faults.StreamFault.TheVariants.{Write as WriteFailed};

    ghost from_gives = { λ _ fault. fault ≡ WriteFailed };

    fn from(_: WriteFault) -> Self {
        StreamFault::Write
    }
}

/// Hands all bytes to the writer.
///
/// # Errors
/// A call failed, took no byte, or was interrupted 1,000 times in a row. The writer has a first
/// part of the bytes.
pub fn write_all<W: Write>(writer: &mut W, bytes: &[u8]) -> Result<(), WriteFault>
    ensures ok { OnOk result (Appends (W.contents writer.old) (W.contents writer.new) bytes.now) }
    // after a fault it has the first of them, and not all
    ensures err { OnErr result
        (AppendsPart (W.contents writer.old) (W.contents writer.new) bytes.now) }
{
    let mut rest = bytes;
    while !rest.is_empty() {
        let count = write_some(writer, rest)?;
        let (_, after) = rest.split_at(count);
        rest = after;
    }
    Ok(())
}

// Hands some of the bytes to the writer, at least one.
fn write_some<W: Write>(writer: &mut W, bytes: &[u8]) -> Result<usize, WriteFault>
    ensures some { IfOk result (λ count. 0 < count) }
    ensures within { IfOk result (λ count. count ≤ length bytes.now) }
    ensures taken { IfOk result (λ count.
        Appends (W.contents writer.old) (W.contents writer.new) (take count bytes.now)) }
    ensures err { OnErr result (Keeps (W.contents writer.old) (W.contents writer.new)) }
{
    for _ in 0..TRIES {
        match writer.write(bytes) {
            Ok(0) => return Err(WriteFault),
            Ok(count) => return Ok(count),
            Err(error) if error.kind() == io::ErrorKind::Interrupted => {}
            Err(_) => return Err(WriteFault),
        }
    }
    Err(WriteFault)
}

/// Lines on their way to a writer.
#[derive(Drop)]
#[derive_where(Debug)]
pub struct Output<'a, W: Write> {
    #[derive_where(skip)]
    writer: &'a mut W,
    text: String,
}

impl<'a, W: Write> Output<'a, W> {
    ghost use Rattle.text_streams.specs.Output.{given_to};

    /// An output that was given nothing yet.
    ///
    /// # Errors
    /// Out of memory.
    pub fn new(alloc: Global, writer: &'a mut W) -> Result<Output<'a, W>, AllocError>
        ensures { IfOk result (λ output.
            Keeps (W.contents writer.entry.now) (given_to W.contents output)) }
    {
        Ok(Output {
            writer,
            text: String::with_capacity(alloc, 2 * FULL)?,
        })
    }

    /// Adds a line.
    ///
    /// # Errors
    /// Out of memory, or what was gathered can't be written.
    pub fn line<L: fmt::Display + Drop>(&mut self, line: L) -> Result<(), StreamFault>
        ensures { OnOk result (IfSome (L.output line) (λ bytes.
            Appends (given_to W.contents self.old) (given_to W.contents self.new)
            (bytes ++ 10 ∷ []))) }
    {
        writeln!(self.text, "{line}")?;
        if self.text.len() >= FULL {
            self.flush()?;
        }
        Ok(())
    }

    /// Hands all lines so far to the writer. After a fault the output is at its end.
    ///
    /// # Errors
    /// The lines can't be written; the writer has a first part of them.
    pub fn flush(&mut self) -> Result<(), StreamFault>
        ensures given { OnOk result (Keeps (given_to W.contents self.old)
            (given_to W.contents self.new)) }
        ensures handed { OnOk result (Keeps (given_to W.contents self.old)
            (W.contents self.new.writer.now)) }
        // after a fault it has a first part of it, and not all
        ensures err { OnErr result (IfSome (given_to W.contents self.old)
            (λ all. (n : ℕ) × (n < length all)
            × (W.contents self.new.writer.now ≡ Some (take n all)))) }
    {
        write_all(self.writer, self.text.as_bytes())?;
        self.text.clear();
        Ok(())
    }
}
