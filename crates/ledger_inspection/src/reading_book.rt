//! Reads ledgers as one book.
use crate::book_reader::{BalanceKeeper, RecordPasser, RecordPrinter};
use crate::faults::InspectionFault;
use crate::inspection::{Inspection, Task};
use crate::meter::Meter;
use crate::shelf::{Extent, Shelf, parts_of};
use device_files::LockMode;
use ledger_printing::{JournalPrint, JournalWish, Progress, print_balances};
use std::alloc::Global;
use std::fs::{File, Files};
use std::io::Write;
use text_streams::{Output, StreamFault};
use turn_ledger::Ledger;

/// Finds the archive in a folder sound, as `check` does: each of its files, and that each goes on
/// where the one before ends.
///
/// # Errors
/// [`InspectionFault`], the first that is met.
pub fn check_archive<'a, R: Files<File = File> + AllocGlobal + Clone + Drop>(
    rt: &R,
    folder: &'a str,
) -> Result<(), InspectionFault<'a>> {
    let parts = parts_of(rt, &[folder])?;
    let shelf = Shelf {
        rt,
        parts: parts.as_slice(),
        locking: LockMode::Shared,
    };
    shelf.walk(&mut RecordPasser)?;
    Ok(())
}

/// Finds all of a book sound, and then prints what is asked for. The last ledger stays open, so
/// that nobody writes it.
pub(crate) fn read_book<
    'a,
    R: Files<File = File> + AllocGlobal + Clone + Drop,
    W: Write + Drop,
    E: Write,
>(
    rt: &R,
    wish: &Inspection<'a>,
    writer: &mut W,
    meter: &mut Meter<'_, E>,
) -> Result<(), InspectionFault<'a>> {
    for path in &wish.paths {
        meter.tell_locking(path, wish.locking);
    }
    let parts = parts_of(rt, wish.paths.as_slice())?;
    let Some(last) = parts.last() else {
        return Err(InspectionFault::Nothing);
    };
    let shelf = Shelf {
        rt,
        parts: parts.as_slice(),
        locking: wish.locking,
    };
    let held = shelf.open(*last)?;
    let read = shelf.read(wish.task, writer, meter);
    drop(held);
    read
}

impl<'a, R: Files<File = File> + AllocGlobal> Shelf<'a, '_, R> {
    fn read<W: Write + Drop, P: Progress>(
        &self,
        task: Task,
        writer: &mut W,
        progress: &mut P,
    ) -> Result<(), InspectionFault<'a>> {
        match task {
            Task::Check { quiet: false } => {
                let extent = self.walk(&mut RecordPasser)?;
                print_extent(self.rt.alloc(), &extent, writer)?;
            }
            Task::Check { quiet: true } | Task::Map => {
                self.walk(&mut RecordPasser)?;
            }
            Task::Balances { format, date, at } => {
                let ledger = self.held(at)?;
                print_balances(self.rt.alloc(), &ledger, format, date, writer)?;
            }
            Task::Journal(wish) => self.print(wish, writer, progress)?,
        }
        Ok(())
    }

    // Prints the records of a book, once all of it is found sound.
    fn print<W: Write + Drop, P: Progress>(
        &self,
        wish: JournalWish,
        writer: &mut W,
        progress: &mut P,
    ) -> Result<(), InspectionFault<'a>> {
        self.walk(&mut RecordPasser)?;
        let printed = JournalPrint::over(self.rt.alloc(), wish, writer)?;
        let mut printing = RecordPrinter { printed, progress };
        self.walk(&mut printing)?;
        Ok(printing.printed.end()?)
    }

    // What the accounts hold at the end, or held before the record with that sequence number.
    fn held(&self, at: Option<u64>) -> Result<Ledger, InspectionFault<'a>> {
        let mut ledger = Ledger::new(self.rt.alloc())?;
        let Some(at) = at else {
            let extent = self.walk(&mut RecordPasser)?;
            ledger.copy_from(extent.seam.ledger());
            return Ok(ledger);
        };
        let mut keeping = BalanceKeeper {
            at,
            ledger,
            is_found: false,
        };
        let extent = self.walk(&mut keeping)?;
        if !keeping.is_found {
            return Err(InspectionFault::OutOfReach {
                part: extent.last,
                at,
                first: extent.first,
                next: extent.seam.next(),
            });
        }
        Ok(keeping.ledger)
    }
}

// A line for each of its numbers.
fn print_extent<W: Write>(
    alloc: Global,
    extent: &Extent<'_>,
    writer: &mut W,
) -> Result<(), StreamFault> {
    let mut output = Output::new(alloc, writer)?;
    output.line(format_args!("first {}", extent.first))?;
    output.line(format_args!("next {}", extent.seam.next()))?;
    output.line(format_args!("total {}", extent.seam.ledger().total()))?;
    output.flush()
}
