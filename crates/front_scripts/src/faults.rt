//! Why a script ends early.
use std::alloc::AllocError;
use text_grammar::LineFault;
use text_streams::StreamFault;
use thiserror::Error;

/// Why a script ended before its last line. What earlier lines printed stands.
#[derive(Clone, Copy, Debug, PartialEq, Eq, Error)]
pub enum ScriptFault {
    /// The script couldn't be read.
    #[error("read failed")]
    Read,
    /// Output couldn't be written.
    #[error("write failed")]
    Write,
    /// There was no memory for what a command or the script needs.
    #[error("out of memory")]
    Memory,
    /// The script has more than 16,777,216 bytes.
    #[error("script too long")]
    TooLong,
    /// A line is none of the grammar. Lines are numbered from 1.
    #[error("line {line}: {cause}")]
    Line { line: u64, cause: LineFault },
}

impl From<AllocError> for ScriptFault {
    ghost use Rattle.std.specs.Prelude.{◌≡◌};
    ghost use Rattle.front_scripts.specs.declared.faults.ScriptFault.TheVariants.{Memory};

    ghost from_gives = { λ _ fault. fault ≡ Memory };

    fn from(_: AllocError) -> Self {
        ScriptFault::Memory
    }
}

impl From<StreamFault> for ScriptFault {
    ghost use Rattle.std.specs.Prelude.{◌≡◌};
    ghost use Rattle.front_scripts.specs.Faults.{of_stream};

    ghost from_gives = { λ stream fault. fault ≡ of_stream stream };

    fn from(fault: StreamFault) -> Self {
        match fault {
            StreamFault::Read => ScriptFault::Read,
            StreamFault::Write => ScriptFault::Write,
            StreamFault::Memory => ScriptFault::Memory,
            StreamFault::TooLong => ScriptFault::TooLong,
        }
    }
}
