//! The words of a journal.
use crate::bench::Bench;
use crate::devices::{set_account, set_fault};
use crate::said::Said;
use crate::scene::{Hand, Scene};
use crate::told::Told;
use gate_journal::{Journal, PAYLOAD, Record, Snapshot, SnapshotRefusal};

/// `journal`: opens the journal that the device holds.
pub fn open_journal(device: Bench, told: &mut Told) -> Scene {
    match Journal::open(device) {
        Ok(journal) => {
            tell_numbers(&journal, told);
            Scene::Journal(journal)
        }
        Err(refused) => Scene::Device(told.handed_back(refused)),
    }
}

/// A word of a journal.
pub fn ask(
    journal: &mut Journal<Bench>,
    hand: &mut Hand,
    name: &str,
    said: &mut Said<'_>,
    told: &mut Told,
) {
    match name {
        "numbers" => tell_numbers(journal, told),
        "append" => append(journal, said, told),
        "checkpoint" => told.done(&journal.checkpoint(&hand.snapshot)),
        "snapshot" => tell_snapshot(&journal.read_snapshot(), told),
        "earlier" => tell_snapshot(&journal.read_earlier_snapshot(), told),
        "read" => read(journal, said, told),
        "account" => set_account(hand, said, told),
        "fault" => set_fault(hand, said, told),
        _ => told.line("no such word of a journal"),
    }
}

// `snapshot`, `earlier`: the snapshot of the live bank, and of the other one.
fn tell_snapshot(found: &Result<Snapshot, SnapshotRefusal>, told: &mut Told) {
    match found {
        Ok(snapshot) => told.snapshot(snapshot),
        Err(refusal) => told.refused(refusal),
    }
}

// `numbers`: base, next, room, the live bank, its epoch, the slots of a bank, and whether it is
// faulted.
fn tell_numbers(journal: &Journal<Bench>, told: &mut Told) {
    let (base, next, room) = (journal.base(), journal.next(), journal.room());
    let (bank, epoch, slots) = (journal.live_bank(), journal.epoch(), journal.slots());
    told.named("base, next, room", &(base, next, room));
    told.named("bank, epoch, slots", &(bank, epoch, slots));
    told.named("faulted", &journal.is_faulted());
}

/// The record that three words spell: its station, how many places it has, and the bytes that these
/// begin with.
pub fn read_record(said: &mut Said<'_>) -> Option<Record> {
    let (station, count) = (said.small(), said.small());
    let mut payload = [0; PAYLOAD];
    said.bytes(&mut payload);
    let (station, count) = (station.min(65_535) as u16, count.min(65_535) as u16);
    Record::new(station, count, payload)
}

// `append STATION COUNT HEX`
fn append(journal: &mut Journal<Bench>, said: &mut Said<'_>, told: &mut Told) {
    match read_record(said) {
        Some(record) => match journal.append(&record) {
            Ok(number) => told.named("appended", &number),
            Err(refusal) => told.refused(&refusal),
        },
        None => told.line("no record"),
    }
}

// `read K`
fn read(journal: &mut Journal<Bench>, said: &mut Said<'_>, told: &mut Told) {
    let number = said.number();
    if !said.is_right(told) {
        return;
    }
    if number < journal.base() || number >= journal.next() {
        told.line("not asked: no such record");
        return;
    }
    told.record_read(&journal.read_record(number));
}
