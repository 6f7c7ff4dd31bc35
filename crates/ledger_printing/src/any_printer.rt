//! A journal in whichever format.
use crate::csv_rows::CsvJournal;
use crate::format::Format;
use crate::hledger::HledgerJournal;
use crate::journal::JournalWish;
use crate::json_lines::JsonJournal;
use crate::printer::JournalPrinter;
use crate::table::TableJournal;
use ledger_reading::ListedRecord;
use std::alloc::{AllocError, Global};
use std::io::Write;
use text_streams::StreamFault;
use turn_ledger::Ledger;

/// A journal on its way to a writer, in whichever format.
#[derive(Drop)]
pub(crate) enum AnyPrinter<'a, W: Write + Drop> {
    Table(TableJournal<'a, W>),
    Csv(CsvJournal<'a, W>),
    Json(JsonJournal<'a, W>),
    Hledger(HledgerJournal<'a, W>),
}

impl<'a, W: Write + Drop> AnyPrinter<'a, W> {
    /// In the format that is asked for.
    pub(crate) fn over(
        alloc: Global,
        wish: JournalWish,
        writer: &'a mut W,
    ) -> Result<AnyPrinter<'a, W>, AllocError> {
        match wish.format {
            Format::Table => Ok(AnyPrinter::Table(TableJournal::over(alloc, writer)?)),
            Format::Csv => Ok(AnyPrinter::Csv(CsvJournal::over(alloc, writer)?)),
            Format::Json => Ok(AnyPrinter::Json(JsonJournal::over(alloc, writer)?)),
            Format::Hledger => {
                let is_continued = wish.selection.from > 0;
                let printer = HledgerJournal::over(alloc, wish.date, is_continued, writer)?;
                Ok(AnyPrinter::Hledger(printer))
            }
        }
    }
}

impl<W: Write + Drop> JournalPrinter for AnyPrinter<'_, W> {
    fn begin(&mut self, base: u64, before: &Ledger) -> Result<(), StreamFault> {
        match self {
            AnyPrinter::Table(printer) => printer.begin(base, before),
            AnyPrinter::Csv(printer) => printer.begin(base, before),
            AnyPrinter::Json(printer) => printer.begin(base, before),
            AnyPrinter::Hledger(printer) => printer.begin(base, before),
        }
    }

    fn record(&mut self, listed: &ListedRecord, after: &Ledger) -> Result<(), StreamFault> {
        match self {
            AnyPrinter::Table(printer) => printer.record(listed, after),
            AnyPrinter::Csv(printer) => printer.record(listed, after),
            AnyPrinter::Json(printer) => printer.record(listed, after),
            AnyPrinter::Hledger(printer) => printer.record(listed, after),
        }
    }

    fn end(&mut self) -> Result<(), StreamFault> {
        match self {
            AnyPrinter::Table(printer) => printer.end(),
            AnyPrinter::Csv(printer) => printer.end(),
            AnyPrinter::Json(printer) => printer.end(),
            AnyPrinter::Hledger(printer) => printer.end(),
        }
    }
}
