//! What each format of a journal has to print.
use ledger_reading::ListedRecord;
use text_streams::StreamFault;
use turn_ledger::Ledger;

/// A journal on its way to a writer, in one of the formats.
pub(crate) trait JournalPrinter {
    /// Tells what the accounts held before the record with this sequence number, which is the
    /// first.
    fn begin(&mut self, base: u64, before: &Ledger) -> Result<(), StreamFault>;

    /// Tells a record, and what the accounts that it names hold after it.
    fn record(&mut self, listed: &ListedRecord, after: &Ledger) -> Result<(), StreamFault>;

    /// Hands all that was told to the writer.
    fn end(&mut self) -> Result<(), StreamFault>;
}
