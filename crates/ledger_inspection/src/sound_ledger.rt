//! What is printed of a sound ledger.
ghost use Rattle.std.specs.Prelude.{◌≡◌, ◌+◌, ◌≤◌};

use crate::inspection::Task;
use gate_journal::ReadRefusal;
use ledger_drawing::draw;
use ledger_printing::{Progress, print_balances, print_journal};
use ledger_reading::{Numbers, Sound};
use sector_device::Device;
use std::alloc::Global;
use std::io::Write;
use text_streams::{Output, OutputFault, StreamFault};

/// Does with a sound ledger what is asked for.
pub(crate) fn print_sound<D: Device + Drop, W: Write + Drop, P: Progress>(
    alloc: Global,
    task: Task,
    sound: Sound<D>,
    writer: &mut W,
    progress: &mut P,
) -> Result<(), OutputFault<ReadRefusal>> {
    match task {
        Task::Check { quiet: true } => Ok(()),
        Task::Check { quiet: false } => Ok(print_numbers(alloc, &sound, writer)?),
        Task::Journal(wish) => print_journal(alloc, sound, wish, writer, progress),
        Task::Balances { format, date, .. } => {
            Ok(print_balances(alloc, &sound.ledger, format, date, writer)?)
        }
        Task::Map => print_sound_map(alloc, sound, writer),
    }
}

// A line for each of its numbers.
fn print_numbers<D: Device, W: Write>(
    alloc: Global,
    sound: &Sound<D>,
    writer: &mut W,
) -> Result<(), StreamFault> {
    let numbers = sound.journal.numbers();
    let mut output = Output::new(alloc, writer)?;
    output.line(format_args!("layout {}", numbers.version))?;
    output.line(format_args!("slots {}", numbers.slots))?;
    output.line(format_args!("live bank {}", numbers.live_bank))?;
    if let Some(epoch) = numbers.epoch {
        output.line(format_args!("epoch {epoch}"))?;
    }
    output.line(format_args!("base {}", numbers.base))?;
    output.line(format_args!("next {}", numbers.next))?;
    output.line(format_args!("free slots {}", free_slots(numbers)))?;
    output.line(format_args!("total {}", sound.ledger.total()))?;
    output.flush()
}

// How many slots of the live bank have no record.
fn free_slots(numbers: Numbers) -> u64
    ensures { numbers.base ≤ numbers.next → numbers.next ≤ numbers.base + numbers.slots
        → result + numbers.next ≡ numbers.base + numbers.slots }
{
    let records = numbers.next.saturating_sub(numbers.base);
    numbers.slots.saturating_sub(records)
}

// Draws the sectors of a sound ledger.
fn print_sound_map<D: Device + Drop, W: Write>(
    alloc: Global,
    sound: Sound<D>,
    writer: &mut W,
) -> Result<(), OutputFault<ReadRefusal>> {
    let Sound { journal, .. } = sound;
    let mut device = journal.into_device();
    match draw(alloc, &mut device, None, writer) {
        Ok(()) => Ok(()),
        Err(OutputFault::Source(fault)) => Err(OutputFault::Source(ReadRefusal::from(fault))),
        Err(OutputFault::Stream(fault)) => Err(OutputFault::Stream(fault)),
    }
}
