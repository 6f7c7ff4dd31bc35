//! Looks at ledgers, and prints them or tells what is wrong with them.
ghost use Rattle.std.specs.Prelude.{◌≡◌, true, IfErr, OnOk};
ghost use Rattle.ledger_inspection.specs.Faults.{is_refusal, IsOfOne};
ghost use Rattle.ledger_inspection.specs.Verdict.{IsSound, IsRefused};

use crate::faults::InspectionFault;
use crate::inspection::{Inspection, Task};
use crate::meter::Meter;
use crate::reading_book::read_book;
use crate::sound_ledger::print_sound;
use crate::unsound_ledger::{answered, print_unsound};
use device_files::ReadOnlyFile;
use ledger_folder::{Part, is_folder};
use ledger_printing::Progress;
use ledger_reading::look;
use sector_device::Device;
use std::alloc::Global;
use std::fs::{File, Files};
use std::io::Write;
use text_streams::WatchedWriter;

/// Does what is asked for with a ledger, or with several as one book. A book is found sound, and
/// each of its ledgers to go on where the one before ends, before anything is printed; the last one
/// stays locked from then on. What is printed goes to the writer, and so does what `check` finds
/// wrong, unless it is quiet. The progress of long work goes to `errors`, if it is to be shown. A
/// writer whose reader went away has taken enough.
///
/// # Errors
/// [`InspectionFault`], the first that is met.
pub fn inspect<'a, R: Files<File = File> + AllocGlobal + Clone + Drop, W: Write, E: Write>(
    rt: &R,
    wish: &Inspection<'a>,
    writer: &mut W,
    errors: &mut E,
    shows_progress: bool,
) -> Result<(), InspectionFault<'a>> {
    let mut output = WatchedWriter::over(writer);
    let mut meter = Meter::over(rt.alloc(), errors, shows_progress);
    let looked = match wish.paths.as_slice() {
        [path] if is_alone(rt, path, wish.task) => {
            inspect_file(rt, wish, path, &mut output, &mut meter)
        }
        _ => read_book(rt, wish, &mut output, &mut meter),
    };
    meter.end();
    match looked {
        Err(fault) if fault.is_of_reader(output.is_closed()) => Ok(()),
        Err(fault) => Err(answered(rt.alloc(), wish.task, fault, &mut output)),
        Ok(()) => Ok(()),
    }
}

// Whether what is at the one path that is named is looked at alone. A folder is read as a book, and
// so is a ledger of which earlier balances are asked for.
fn is_alone<R: Files<File = File>>(rt: &R, path: &str, task: Task) -> bool {
    match task {
        Task::Map => true,
        Task::Balances { at: Some(_), .. } => false,
        Task::Check { .. } | Task::Journal(_) | Task::Balances { .. } => !is_folder(rt, path),
    }
}

// Opens the file and does what is asked for with its ledger.
fn inspect_file<'a, F: Files<File = File> + AllocGlobal, W: Write + Drop, E: Write>(
    rt: &F,
    wish: &Inspection<'a>,
    path: &'a str,
    writer: &mut W,
    meter: &mut Meter<'_, E>,
) -> Result<(), InspectionFault<'a>>
    ensures { IfErr result (IsOfOne (Part.File path.entry)) }
{
    match ReadOnlyFile::open(rt, rt.alloc(), path, wish.locking) {
        Ok(device) => {
            meter.tell_locking(path, wish.locking);
            inspect_device(rt.alloc(), path, wish.task, device, writer, meter)
        }
        Err(fault) => Err(InspectionFault::of_file(Part::File(path), fault)),
    }
}

/// Does what is asked for with the ledger on a device, which is the file at the path. What is
/// printed of a sound ledger goes to the writer, and so does the drawing of one that isn't sound.
///
/// # Errors
/// [`InspectionFault`] of this ledger: it isn't sound, can't be read again, or isn't printed to its
/// end.
pub fn inspect_device<'a, D: Device + Drop, W: Write + Drop, P: Progress>(
    alloc: Global,
    path: &'a str,
    task: Task,
    device: D,
    writer: &mut W,
    progress: &mut P,
) -> Result<(), InspectionFault<'a>>
    ensures one { IfErr result (IsOfOne (Part.File path.entry)) }

    // On an honest device.
    ensures sound { (D.state device).honest → OnOk result (IsSound D (D.state device).reads) }
    ensures refused { (D.state device).honest
        → IfErr result (λ fault. is_refusal fault ≡ true → IsRefused (D.state device).reads) }
{
    match look(alloc, device) {
        Ok(sound) => match print_sound(alloc, task, sound, writer, progress) {
            Ok(()) => Ok(()),
            Err(fault) => Err(InspectionFault::of_printing(Part::File(path), fault)),
        },
        Err((device, refusal)) => Err(print_unsound(alloc, path, task, device, refusal, writer)),
    }
}
