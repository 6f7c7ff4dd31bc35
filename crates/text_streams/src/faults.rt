//! Why a stream fails.
use std::alloc::{AllocError, AllocFailed};
use std::fmt::Display;
use thiserror::Error;

/// Why a script couldn't be read, or its output not written.
#[derive(Clone, Copy, Debug, PartialEq, Eq, Error)]
pub enum StreamFault {
    /// The script couldn't be read.
    #[error("read failed")]
    Read,
    /// Output couldn't be written: the writer took no byte, was interrupted too often, or met
    /// another fault.
    #[error("write failed")]
    Write,
    /// There is no memory for the script or the output.
    #[error("out of memory")]
    Memory,
    /// The script has more than 16,777,216 bytes.
    #[error("script too long")]
    TooLong,
}

impl From<AllocError> for StreamFault {
    ghost use Rattle.std.specs.Prelude.{◌≡◌};
    ghost use Rattle.text_streams.specs.declared.faults.StreamFault.TheVariants.{Memory};

    ghost from_gives = { λ _ fault. fault ≡ Memory };

    fn from(_: AllocError) -> Self {
        StreamFault::Memory
    }
}

impl<T: Drop> From<AllocFailed<T>> for StreamFault {
    ghost use Rattle.std.specs.Prelude.{◌≡◌};
    ghost use Rattle.text_streams.specs.declared.faults.StreamFault.TheVariants.{Memory};

    ghost from_gives = { λ _ fault. fault ≡ Memory };

    fn from(_: AllocFailed<T>) -> Self {
        StreamFault::Memory
    }
}

/// Why output that is made of something else isn't made to its end. What was written stands.
#[derive(Clone, Copy, Debug, PartialEq, Eq, Error)]
pub enum OutputFault<E: Display> {
    /// What it is made of couldn't be read.
    #[error("{0}")]
    Source(E),
    /// It couldn't be written, or there was no memory for it.
    #[error("{0}")]
    Stream(StreamFault),
}

impl<E: Display> From<StreamFault> for OutputFault<E> {
    ghost use Rattle.std.specs.Prelude.{◌≡◌};
    ghost use Rattle.text_streams.specs.declared.faults.OutputFault.TheVariants.{Stream};

    ghost from_gives = { λ inner fault. fault ≡ Stream inner };

    fn from(fault: StreamFault) -> Self {
        OutputFault::Stream(fault)
    }
}

impl<E: Display> From<AllocError> for OutputFault<E> {
    ghost use Rattle.std.specs.Prelude.{◌≡◌};
    ghost use Rattle.text_streams.specs.declared.faults.StreamFault.TheVariants.{Memory};
    ghost use Rattle.text_streams.specs.declared.faults.OutputFault.TheVariants.{Stream};

    ghost from_gives = { λ _ fault. fault ≡ Stream Memory };

    fn from(_: AllocError) -> Self {
        OutputFault::Stream(StreamFault::Memory)
    }
}
