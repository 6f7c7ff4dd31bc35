//! What is answered, a line for each call.
use crate::bench::Bench;
use four_state::Line;
use gate_journal::{ReadRefusal, Record, Snapshot};
use std::alloc::{AllocError, Global};
use std::fmt::{Debug, Display};
use sweep_auditor::Audit;
use turn_ledger::{EntryRefusal, Ledger, Verdicts};

// More than a driver may let gather before it reads: no answer takes memory of its own.
const ROOM: usize = 1 << 20;

/// The answers since they were last taken.
#[derive(Drop)]
pub struct Told {
    text: String,
}

impl Told {
    /// Nothing yet.
    pub fn new(alloc: Global) -> Result<Told, AllocError> {
        Ok(Told {
            text: String::with_capacity(alloc, ROOM)?,
        })
    }

    /// The answers.
    pub fn text(&self) -> &str {
        self.text.as_str()
    }

    /// Forgets them.
    pub fn clear(&mut self) {
        self.text.clear();
    }

    /// Adds this to the line. All else adds by it, since each place that writes to the text is dear
    /// to prove.
    pub fn add<L: Display + Drop>(&mut self, words: L) {
        let _ = write!(self.text, "{words}");
    }

    /// Adds a line that says this.
    pub fn line(&mut self, words: &str) {
        self.add(format_args!("{words}\n"));
    }

    /// Adds a line with the text of a value.
    pub fn text_of<V: Display>(&mut self, value: &V) {
        self.add(format_args!("{value}\n"));
    }

    /// Adds a line with a value.
    pub fn value<V: Debug>(&mut self, value: &V) {
        self.add(format_args!("{value:?}\n"));
    }

    /// Adds a line that begins so, with a value.
    pub fn named<V: Debug>(&mut self, name: &str, value: &V) {
        self.add(format_args!("{name} {value:?}\n"));
    }

    /// Adds a line with a refusal: its name and its text.
    pub fn refused<E: Debug + Display>(&mut self, refusal: &E) {
        self.add(format_args!("refused {refusal:?}: {refusal}\n"));
    }

    /// Adds a line with what a call answered: its value, or its refusal.
    pub fn outcome<V: Debug, E: Debug + Display>(&mut self, answer: &Result<V, E>) {
        match answer {
            Ok(value) => self.value(value),
            Err(refusal) => self.refused(refusal),
        }
    }

    /// Adds a line with the record that a call read, or with its refusal.
    pub fn record_read(&mut self, read: &Result<Record, ReadRefusal>) {
        match read {
            Ok(record) => self.record(record),
            Err(refusal) => self.refused(refusal),
        }
    }

    /// Adds a line with what became of an entry.
    pub fn posted(&mut self, made: &Result<(), EntryRefusal>) {
        match made {
            Ok(()) => self.line("ok"),
            Err(refusal) => self.refused(refusal),
        }
    }

    /// Adds a line with the refusal of a call, and hands the call's device back.
    pub fn handed_back<E: Debug + Display + Drop>(&mut self, refused: (Bench, E)) -> Bench {
        let (device, refusal) = refused;
        self.refused(&refusal);
        device
    }

    /// Adds a line if a call was refused.
    pub fn done<E: Debug + Display>(&mut self, made: &Result<(), E>) {
        if let Err(refusal) = made {
            self.refused(refusal);
        }
    }
}

impl Told {
    /// Adds a line with the bits of a line of stations, and how many privileges it has.
    pub fn line_of(&mut self, line: &Line) {
        let privileges = line.privileges();
        self.add(format_args!("{line} privileges {privileges}\n"));
    }

    /// Adds the line at the end of an audit, and from which turn on one station alone was
    /// privileged.
    pub fn audit(&mut self, audit: &Audit) {
        self.line_of(&audit.last);
        self.named("first legitimate", &audit.first_legitimate);
    }

    /// Ends a line with what became of each entry.
    pub fn verdicts(&mut self, verdicts: &Verdicts) {
        for verdict in verdicts.iter() {
            match verdict {
                Ok(()) => self.add(" ok"),
                Err(refusal) => self.add(format_args!(" {refusal:?}")),
            }
        }
        self.add("\n");
    }

    /// Adds a line with bytes, up to the last one that isn't zero.
    pub fn bytes(&mut self, bytes: &[u8]) {
        let used = match bytes.iter().rposition(|byte| *byte != 0) {
            Some(last) => last.saturating_add(1),
            None => 0,
        };
        for byte in bytes.iter().take(used) {
            self.add(format_args!("{byte:02x}"));
        }
        self.add("\n");
    }

    // Adds a line with a record: its station, how many places it has, and their bytes.
    fn record(&mut self, record: &Record) {
        let (station, count) = (record.station(), record.count());
        self.add(format_args!("station {station} count {count} "));
        self.bytes(record.payload());
    }

    /// Adds a line with words of 64 bits.
    pub fn hexadecimal(&mut self, words: &[u64]) {
        for word in words {
            self.add(format_args!("{word:016x} "));
        }
        self.add("\n");
    }

    /// Adds a line with what the accounts hold that hold something, and those that are sealed.
    pub fn ledger(&mut self, next: u64, ledger: &Ledger) {
        let total = ledger.total();
        self.add(format_args!("next {next} total {total}"));
        self.accounts(ledger.balances(), ledger.marks());
    }

    /// The same of a snapshot.
    pub fn snapshot(&mut self, snapshot: &Snapshot) {
        self.add("snapshot");
        self.accounts(&snapshot.balances, &snapshot.sealed);
    }

    // Ends a line with these accounts.
    fn accounts(&mut self, balances: &[u64], marks: &[bool]) {
        for (place, balance) in balances.iter().enumerate() {
            if *balance > 0 {
                let account = place.saturating_add(1);
                self.add(format_args!(" {account}={balance}"));
            }
        }
        for (place, sealed) in marks.iter().enumerate() {
            if *sealed {
                let account = place.saturating_add(1);
                self.add(format_args!(" #{account}"));
            }
        }
        self.add("\n");
    }
}
