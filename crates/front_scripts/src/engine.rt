//! Runs a script over a device.
ghost use Rattle.std.specs.Prelude.{◌≡◌, ◌≤◌, ℕ, Some, None, length, IfErr, IfSome, OnOk};
ghost use Rattle.std.specs.Str.Lines.{lines};
ghost use Rattle.text_grammar.specs.declared.faults.LineFault.{LineFault};
ghost use Rattle.front_scripts.specs.Lines.{first_fault};
ghost use Rattle.front_scripts.specs.declared.faults.ScriptFault.TheVariants.{Line};

use crate::console::Console;
use crate::faults::ScriptFault;
use crate::power::PowerLoss;
use std::alloc::Global;
use std::io::{Read, Write};
use std::sync::Wait;
use std::thread::Threads;
use text_grammar::{Lines, read_command};
use text_streams::{Output, SCRIPT_LIMIT, read_script};

/// Reads a script whole and runs its lines on the device; what a line answers is printed to the
/// writer. A line that is none of the grammar ends it; what earlier lines printed stands. It may
/// wait if the script has a day.
///
/// # Errors
/// [`ScriptFault`]: the first wrong line, or why the script can't be read or its answers written.
pub fn run_script<H: Threads + Wait + Sync, R: Read, W: Write, D: PowerLoss + Drop>(
    rt: &H,
    alloc: Global,
    reader: &mut R,
    writer: &mut W,
    device: D,
) -> Result<(), ScriptFault>
    // of a reader whose bytes are known: no line of the script is wrong, or a line is told that is
    // the first wrong one
    ensures sound { OnOk result (IfSome (R.remaining reader.old) (λ bytes.
        first_fault 1 (lines bytes) ≡ None)) }
    ensures line { IfErr result (λ fault. (line : ℕ) (cause : LineFault) → fault ≡ Line line cause
        → IfSome (R.remaining reader.old) (λ bytes. first_fault 1 (lines bytes) ≡ Some fault)) }
{
    let script = read_script(alloc, reader)?;
    let mut output = Output::new(alloc, writer)?;
    match run_lines(rt, alloc, script.as_slice(), device, &mut output) {
        Err(ScriptFault::Write) => Err(ScriptFault::Write),
        outcome => {
            output.flush()?;
            outcome
        }
    }
}

// Runs the lines of a script that was read.
fn run_lines<H: Threads + Wait + Sync, W: Write, D: PowerLoss + Drop>(
    rt: &H,
    alloc: Global,
    script: &[u8],
    device: D,
    output: &mut Output<'_, W>,
) -> Result<(), ScriptFault>
    requires { length script.now ≤ SCRIPT_LIMIT }
    ensures sound { OnOk result (first_fault 1 (lines script.now) ≡ None) }
    ensures line { IfErr result (λ fault. (line : ℕ) (cause : LineFault) → fault ≡ Line line cause
        → first_fault 1 (lines script.now) ≡ Some fault) }
{
    let mut console = Console::Closed(device);
    let mut line: u64 = 0;
    for text in Lines::of(script) {
        line = line.saturating_add(1);
        let command = match read_command(text, line) {
            Ok(command) => command,
            Err(cause) => return Err(ScriptFault::Line { line, cause }),
        };
        if let Some(command) = command {
            console = console.run(rt, alloc, command, output)?;
        }
    }
    Ok(())
}
