//! Reads a script whole.
ghost use Rattle.std.specs.Prelude.{◌≡◌, ◌≢◌, ◌<◌, ◌≤◌, ◌+◌, true, ℕ, List, ◌++◌, length, vec_len};
ghost use Rattle.std.specs.Prelude.{IfErr, IfOk, IfSome, OnOk};
ghost use Rattle.std.specs.Io.KnownBytes.{Consumes, IsAtEnd};
ghost use Rattle.text_streams.specs.declared.faults.StreamFault.TheVariants.{TooLong};

use crate::faults::StreamFault;
use std::alloc::Global;
use std::io;
use std::io::Read;

/// The most bytes of a script.
pub const SCRIPT_LIMIT: usize = 16_777_216;

/// A script's limit in numbers, as a statement; the body does nothing.
pub fn limit_in_numbers()
    ensures { SCRIPT_LIMIT ≡ 16777216 }
{}

/// The most calls of the reader.
const CALLS: u32 = 33_554_432;

/// How many bytes a call of the reader may give.
const CHUNK: usize = 65_536;

/// All bytes of a script. A call that is interrupted is made again.
///
/// # Errors
/// `TooLong` for more than 16,777,216 bytes; `Memory`; `Read` if a call failed, or after 33,554,432
/// of them.
pub fn read_script<R: Read>(alloc: Global, reader: &mut R) -> Result<Vec<u8>, StreamFault>
    ensures limit { IfOk result (λ script. vec_len script ≤ SCRIPT_LIMIT) }
    // all bytes that the reader had, where they are known, and it has none left
    ensures whole { IfOk result (λ script.
        IfSome (R.remaining reader.old) (λ bytes. script.items ≡ bytes)) }
    ensures end { OnOk result (IsAtEnd (R.remaining reader.new)) }
    ensures too_long { IfErr result (λ fault.
        fault ≡ TooLong → IfSome (R.remaining reader.old) (λ bytes. SCRIPT_LIMIT < length bytes)) }
{
    read_within(alloc, reader, CALLS)
}

// All bytes of a script, in no more than so many calls of the reader.
fn read_within<R: Read>(alloc: Global, reader: &mut R, calls: u32) -> Result<Vec<u8>, StreamFault>
    ensures limit { IfOk result (λ script. vec_len script ≤ SCRIPT_LIMIT) }
    // all bytes that the reader had, where they are known, and it has none left
    ensures whole { IfOk result (λ script.
        IfSome (R.remaining reader.old) (λ bytes. script.items ≡ bytes)) }
    ensures end { OnOk result (IsAtEnd (R.remaining reader.new)) }
    ensures too_long { IfErr result (λ fault.
        fault ≡ TooLong → IfSome (R.remaining reader.old) (λ bytes. SCRIPT_LIMIT < length bytes)) }
{
    let mut script = Vec::new(alloc);
    let mut buffer = vec![in alloc; 0; CHUNK]?;
    let chunk = buffer.as_mut_slice();
    for _ in 0..calls {
        if read_piece(reader, chunk, &mut script)? {
            return Ok(script);
        }
    }
    Err(StreamFault::Read)
}

// Calls the reader once and adds what it gave to the script. Answers whether the script has ended.
fn read_piece<R: Read>(
    reader: &mut R,
    chunk: &mut [u8],
    script: &mut Vec<u8>,
) -> Result<bool, StreamFault>
    requires room { 0 < length chunk.old }
    requires limit { vec_len script.old ≤ SCRIPT_LIMIT }
    ensures within { OnOk result (vec_len script.new ≤ SCRIPT_LIMIT) }
    ensures added { OnOk result ((bytes : List ℕ)
        × Consumes (R.remaining reader.old) (R.remaining reader.new) bytes
        × (script.new.items ≡ script.old.items ++ bytes)) }
    ensures end { IfOk result (λ ended. ended ≡ true → IsAtEnd (R.remaining reader.new)) }
    ensures too_long { IfErr result (λ fault. fault ≡ TooLong
        → IfSome (R.remaining reader.old)
        (λ bytes. SCRIPT_LIMIT < vec_len script.old + length bytes)) }
{
    let count = match reader.read(chunk) {
        Ok(0) => return Ok(true),
        Ok(count) => count,
        Err(error) if error.kind() == io::ErrorKind::Interrupted => return Ok(false),
        Err(_) => return Err(StreamFault::Read),
    };
    if script.len() + count > SCRIPT_LIMIT {
        return Err(StreamFault::TooLong);
    }
    script.extend_from_slice(&chunk[..count])?;
    Ok(false)
}
