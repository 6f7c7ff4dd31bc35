//! What is done with the ledgers of a book, one after another.
ghost use Rattle.std.specs.Prelude.{OnOk};
ghost use Rattle.ledger_reading.specs.Listed.{IsAtEnd};

use device_files::ReadOnlyFile;
use ledger_printing::{JournalPrint, Progress};
use ledger_reading::{Listing, ReadRefusal, skip_to};
use std::io::Write;
use text_streams::{OutputFault, StreamFault};
use turn_ledger::Ledger;

/// What is done with the ledgers of a book, one after another.
pub(crate) trait Reader {
    /// Begins with the first one.
    fn begin(&mut self, listing: &Listing<ReadOnlyFile>) -> Result<(), StreamFault>;

    /// Reads what is left of one.
    fn read(&mut self, listing: &mut Listing<ReadOnlyFile>) -> Result<(), OutputFault<ReadRefusal>>
        ensures all { OnOk result (IsAtEnd listing.new) };
}

/// Does nothing with them, so that they are found sound.
#[derive(Drop)]
pub(crate) struct RecordPasser;

impl Reader for RecordPasser {
    fn begin(&mut self, _: &Listing<ReadOnlyFile>) -> Result<(), StreamFault> {
        Ok(())
    }

    fn read(&mut self, listing: &mut Listing<ReadOnlyFile>) -> Result<(), OutputFault<ReadRefusal>>
        ensures all { OnOk result (IsAtEnd listing.new) }
    {
        pass_over(listing)
    }
}

/// Prints their records.
#[derive(Drop)]
pub(crate) struct RecordPrinter<'a, 'b, W: Write + Drop, P: Progress> {
    pub(crate) printed: JournalPrint<'a, W>,
    pub(crate) progress: &'b mut P,
}

impl<W: Write + Drop, P: Progress> Reader for RecordPrinter<'_, '_, W, P> {
    fn begin(&mut self, listing: &Listing<ReadOnlyFile>) -> Result<(), StreamFault> {
        self.printed.begin(listing)
    }

    fn read(&mut self, listing: &mut Listing<ReadOnlyFile>) -> Result<(), OutputFault<ReadRefusal>>
        ensures all { OnOk result (IsAtEnd listing.new) }
    {
        self.printed.records(listing, self.progress)
    }
}

/// Keeps what the accounts held before the record with a sequence number, once that is found.
#[derive(Drop)]
pub(crate) struct BalanceKeeper {
    pub(crate) at: u64,
    pub(crate) ledger: Ledger,
    pub(crate) is_found: bool,
}

impl Reader for BalanceKeeper {
    fn begin(&mut self, _: &Listing<ReadOnlyFile>) -> Result<(), StreamFault> {
        Ok(())
    }

    fn read(&mut self, listing: &mut Listing<ReadOnlyFile>) -> Result<(), OutputFault<ReadRefusal>>
        ensures all { OnOk result (IsAtEnd listing.new) }
    {
        if listing.at() <= self.at && self.at <= listing.end() {
            skip_to(listing, self.at).map_err(OutputFault::Source)?;
            self.ledger.copy_from(listing.ledger());
            self.is_found = true;
        }
        pass_over(listing)
    }
}

// Passes over what is left of a listing.
fn pass_over(listing: &mut Listing<ReadOnlyFile>) -> Result<(), OutputFault<ReadRefusal>>
    ensures { OnOk result (IsAtEnd listing.new) }
{
    let end = listing.end();
    skip_to(listing, end).map_err(OutputFault::Source)
}
