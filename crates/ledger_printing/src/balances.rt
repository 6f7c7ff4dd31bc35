//! Prints what the accounts hold.
use crate::csv_rows::print_csv;
use crate::date::Date;
use crate::format::Format;
use crate::hledger::print_opening;
use crate::json_lines::print_json;
use crate::table::print_table;
use std::alloc::Global;
use std::io::Write;
use text_streams::StreamFault;
use turn_ledger::Ledger;

/// Prints the accounts that hold something or are sealed, ascending, and the total last. The date
/// is that of the transaction in the format for `hledger`.
///
/// # Errors
/// The output can't be written, or out of memory.
pub fn print_balances<W: Write + Drop>(
    alloc: Global,
    ledger: &Ledger,
    format: Format,
    date: Date,
    writer: &mut W,
) -> Result<(), StreamFault> {
    match format {
        Format::Table => print_table(alloc, ledger, writer),
        Format::Csv => print_csv(alloc, ledger, writer),
        Format::Json => print_json(alloc, ledger, writer),
        Format::Hledger => print_opening(alloc, ledger, date, writer),
    }
}
