//! What is listed of a ledger.
use crate::scenes::{deposit, formatted, needed, needed_of, withdrawal};
use gate_journal::{Journal, PAYLOAD, Record};
use ledger_reading::{Entry, ListedRecord, Listing, Sound, look};
use sector_device::{Device, MemoryDevice};
use std::alloc::Global;
use std::panic::Expect;
use std::process::Abort;

// A record of a station with two entries.
fn record_of(by: u16, [first, second]: [Entry; 2]) -> Option<Record> {
    let mut payload = [0; PAYLOAD];
    payload[..32].copy_from_slice(&first.write());
    payload[32..64].copy_from_slice(&second.write());
    Record::new(by, 2, payload)
}

// The device of a ledger with these records, each of a station.
fn with_records(rt: &impl Abort, alloc: Global, records: [(u16, [Entry; 2]); 2]) -> MemoryDevice {
    let mut journal = needed_of(rt, Journal::open(formatted(rt, alloc, 2)));
    for (by, entries) in records {
        let record = record_of(by, entries).expect(rt, "a record");
        needed(rt, journal.append(&record));
    }
    journal.into_device()
}

// The next record is this one, and after it the first two accounts hold so much.
fn is_next<D: Device>(
    listing: &mut Listing<D>,
    (by, wanted): (u16, &[Entry]),
    amounts: (u64, u64),
) -> bool {
    let Ok(
        Some(
            ListedRecord {
                record,
                entries,
                ..
            },
        ),
    ) = listing.next()
    else {
        return false;
    };
    let (first, second) = (listing.ledger().balance(1), listing.ledger().balance(2));
    (record.station(), entries.as_slice()) == (by, wanted)
        && (first, second) == (Some(amounts.0), Some(amounts.1))
}

// The ledger's listing.
fn listed(rt: &impl Abort, alloc: Global, device: MemoryDevice) -> Listing<MemoryDevice> {
    let Sound { journal, ledger } = needed_of(rt, look(alloc, device));
    needed_of(rt, journal.list(ledger))
}

#[test]
fn records_are_listed_with_the_balances_after_them(rt: HostRuntime) {
    let alloc = rt.alloc();
    let first = [deposit(1, 500), withdrawal(1, 200)];
    let second = [
        deposit(2, 150),
        Entry::Seal {
            account: 2,
            reference: 4,
        },
    ];
    let device = with_records(&rt, alloc, [(5, first), (0, second)]);
    let mut listing = listed(&rt, alloc, device);
    assert!(rt;
        is_next(&mut listing, (5, &first), (300, 0))
            && is_next(&mut listing, (0, &second), (300, 150))
            && needed(&rt, listing.next()).is_none()
    );
}
