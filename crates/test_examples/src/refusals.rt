//! The text of each refusal that no call of the console tells: what it tells,
//! `checks/calls/refusal_texts.py` lists.
use device_files::{FileFault, FileRefusal};
use gate_journal::{FormatRefusal, ReadRefusal};
use journal_recovery::{MigrateRefusal, OpenRefusal};
use ledger_file::LedgerRefusal;
use ledger_reading::{AddRefusal, FollowRefusal};
use office_day::{CloseRefusal, DayRefusal, End, EndName};
use std::alloc::Global;
use std::fmt::{Display, Write};
use turn_clerk::{FindRefusal, TurnRefusal};

// Whether the texts of these refusals are these lines.
fn reads<T: Display>(alloc: Global, refusals: &[T], lines: &str) -> bool {
    let mut told = String::new(alloc);
    for refusal in refusals {
        if writeln!(told, "{refusal}").is_err() {
            return false;
        }
    }
    told.as_str() == lines
}

// Want of memory, a seat of another office, a record that somebody else wrote over, and more
// records than a bank holds.
#[test]
fn refusals_that_no_call_tells_have_texts(rt: HostRuntime) {
    let alloc = rt.alloc();
    let refusals = [
        DayRefusal::Memory,
        DayRefusal::Opening(OpenRefusal::Memory),
        DayRefusal::Closing(CloseRefusal::ForeignSeat),
    ];
    let lines = "out of memory\nout of memory\na seat does not belong to this office\n";
    let told = reads(alloc, &refusals, lines)
        && reads(alloc, &[TurnRefusal::Memory], "out of memory\n")
        && reads(
            alloc,
            &[FindRefusal::Changed],
            "the record is no longer there\n",
        );
    let changed = [FollowRefusal::Ledger(ReadRefusal::Changed)];
    let lines = "the ledger wasn't read: the record is no longer there\n";
    let many = [AddRefusal::TooManySlots];
    assert!(rt;
        told && reads(alloc, &changed, lines)
            && reads(alloc, &many, "a bank has at most 1000000 slots\n")
    );
}

// What a script prints of a day's stations.
#[test]
fn ends_of_stations_have_names(rt: HostRuntime) {
    let ends = [
        EndName(End::NotStarted),
        EndName(End::Reached),
        EndName(End::Stopped),
        EndName(End::Tries),
        EndName(End::Closed),
        EndName(End::Refused(TurnRefusal::Exhausted)),
        EndName(End::Refused(TurnRefusal::Device)),
    ];
    let lines = "NotStarted\nReached\nStopped\nTries\nClosed\nExhausted\nDevice\n";
    assert!(rt; reads(rt.alloc(), &ends, lines));
}

#[test]
fn refusals_of_files_have_texts(rt: HostRuntime) {
    use FileFault::*;
    let alloc = rt.alloc();
    let refusals = [
        LedgerRefusal::Device(Missing),
        LedgerRefusal::Device(NoFolder),
        LedgerRefusal::Device(NotReadable),
        LedgerRefusal::Device(NotWritable),
        LedgerRefusal::Device(NoFile),
        LedgerRefusal::Device(NotSectors),
        LedgerRefusal::Device(InUse),
        LedgerRefusal::Device(NoRoom),
        LedgerRefusal::Device(Memory),
        LedgerRefusal::Device(Failed),
        LedgerRefusal::Device(DiskDenied),
        LedgerRefusal::Device(DiskInUse),
        LedgerRefusal::Device(DiskTooSmall),
        LedgerRefusal::Device(DiskHasNoLedger),
        LedgerRefusal::Device(NoDisk),
    ];
    let lines = "there is no such file\n\
        there is no such folder; make it first\n\
        it may not be read; its owner can allow that\n\
        it may not be read and written; its owner can allow that\n\
        it is neither a file nor a disk\n\
        its length is no multiple of 512 bytes; it is no ledger, or something was appended to it\n\
        another program has it; end that one first\n\
        its file system has no room for it; make room, or take another path\n\
        out of memory\n\
        the system fails to open, lock, read or write it\n\
        it is a disk that may not be read and written\n\
        it is a disk that is in use\n\
        it is a disk with too few sectors\n\
        it is a disk that holds no ledger; --overwrite takes it all the same\n\
        it is no disk, and --overwrite is for disks alone\n";
    let told = reads(alloc, &refusals, lines);
    let refusals = [FileRefusal::Memory, FileRefusal::File];
    let lines = "out of memory\n\
        the file can't be used as a device\n";
    assert!(rt; told && reads(alloc, &refusals, lines));
}

#[test]
fn refusals_of_ledgers_in_files_have_texts(rt: HostRuntime) {
    let (slots, found, needed) = (4, 54, 55);
    let refusals = [
        LedgerRefusal::Missing,
        LedgerRefusal::NoLedger,
        LedgerRefusal::OtherVersion(2),
        LedgerRefusal::Unsound,
        LedgerRefusal::Short {
            slots,
            found,
            needed,
        },
        LedgerRefusal::HasLedger,
        LedgerRefusal::HasOther,
        LedgerRefusal::TooSmall {
            slots,
            found,
            needed,
        },
        LedgerRefusal::Format(FormatRefusal::TooManySlots),
        LedgerRefusal::Format(FormatRefusal::TooSmall),
        LedgerRefusal::Format(FormatRefusal::Device),
    ];
    let lines = "there is no such file; derbyfig format makes a ledger there\n\
        it holds no ledger; derbyfig format makes one of a file without anything\n\
        it holds a ledger of version 2; derbyfig migrate copies one of version 1 or 2 to a new file\n\
        its first sector is damaged, and doesn't tell how many sectors its ledger has\n\
        it is too short for its 4 slots: it has 54 sectors and needs 55; it may be a part of a copy\n\
        it holds a ledger already, which stays as it is\n\
        it holds an unfinished ledger, or another program's file; --overwrite takes it\n\
        it has 54 sectors, and a ledger of 4 slots needs 55\n\
        a bank has at most 1000000 slots\n\
        the device has too few sectors for the slots\n\
        the device failed\n";
    let copying = [
        MigrateRefusal::TooManySlots,
        MigrateRefusal::TooSmall,
        MigrateRefusal::Source(OpenRefusal::Unformatted),
        MigrateRefusal::Target,
    ];
    let copied = "a bank has at most 1000000 slots\n\
        the new device has too few sectors for the slots\n\
        the old device wasn't read: it holds no ledger\n\
        the new device failed\n";
    assert!(rt; reads(rt.alloc(), &refusals, lines) && reads(rt.alloc(), &copying, copied));
}
