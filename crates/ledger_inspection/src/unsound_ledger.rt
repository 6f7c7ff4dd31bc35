//! What is printed of a device that holds no sound ledger.
ghost use Rattle.std.specs.Prelude.{◌≡◌, ◌≢◌, true};
ghost use Rattle.ledger_inspection.specs.Faults.{denies_ledger, is_refusal, IsOfOne, KeepsPart};

use crate::faults::{InspectionFault, denies_ledger};
use crate::inspection::Task;
use crate::wrong::Wrong;
use journal_recovery::OpenRefusal;
use ledger_damage::locate;
use ledger_drawing::draw;
use ledger_folder::Part;
use sector_device::Device;
use std::alloc::Global;
use std::io::Write;
use text_streams::{OutputFault, StreamFault, WatchedWriter, write_all};

/// Draws a device that was refused so, if that is asked for, and tells what is wrong with it. A
/// second look at it finds the place; if that look fails, the cause is told alone.
pub(crate) fn print_unsound<'a, D: Device + Drop, W: Write>(
    alloc: Global,
    path: &'a str,
    task: Task,
    device: D,
    refusal: OpenRefusal,
    writer: &mut W,
) -> InspectionFault<'a>
    ensures one { IsOfOne (Part.File path.entry) result }
    ensures refused { is_refusal result ≡ true → denies_ledger refusal ≡ true }
    ensures quiet { task ≢ Task.Map → writer.new ≡ writer.old }
{
    let mut device = device;
    let place = locate(&mut device, refusal).unwrap_or(None);
    let (part, wrong) = (Part::File(path), Wrong { refusal, place });
    match task {
        Task::Map if denies_ledger(refusal) => {
            draw_wrong(alloc, part, wrong, &mut device, writer)
        }
        _ => InspectionFault::Unsound(part, wrong),
    }
}

/// Prints what is wrong, if that was asked for: a rule's refusal is an answer of `check`. A reader
/// that went away leaves it as it is.
pub(crate) fn answered<'a, W: Write>(
    alloc: Global,
    task: Task,
    fault: InspectionFault<'a>,
    writer: &mut WatchedWriter<'_, W>,
) -> InspectionFault<'a>
    ensures one { KeepsPart fault.entry result }
    ensures refused { is_refusal result ≡ true → result ≡ fault.entry }
    ensures quiet { task ≡ Task.Check true → writer.new ≡ writer.old }
{
    match task {
        Task::Check { quiet: false } if fault.is_refusal() => {}
        _ => return fault,
    }
    let Ok(line) = format!(in alloc; "{fault}\n") else {
        return InspectionFault::Memory;
    };
    match write_all(writer, line.as_bytes()) {
        Err(_) if !writer.is_closed() => InspectionFault::Output(StreamFault::Write),
        _ => fault,
    }
}

// Draws the device, and where it is damaged. A reader that went away has seen enough.
fn draw_wrong<'a, D: Device, W: Write>(
    alloc: Global,
    part: Part<'a>,
    wrong: Wrong,
    device: &mut D,
    writer: &mut W,
) -> InspectionFault<'a>
    ensures one { IsOfOne part.entry result }
    ensures refused { is_refusal result ≡ true → denies_ledger wrong.refusal ≡ true }
{
    let mut output = WatchedWriter::over(writer);
    match draw(alloc, device, wrong.place, &mut output) {
        Err(OutputFault::Source(_)) => InspectionFault::Unseen(part, wrong),
        Err(OutputFault::Stream(StreamFault::Write)) if output.is_closed() => {
            InspectionFault::Unsound(part, wrong)
        }
        Err(OutputFault::Stream(fault)) => InspectionFault::Undrawn(part, wrong, fault),
        Ok(()) => InspectionFault::Unsound(part, wrong),
    }
}
