//! The words of a ledger, which stands alone, without a device.
use crate::devices::set_account;
use crate::entries::read_entries;
use crate::said::Said;
use crate::scene::{Hand, Scene};
use crate::told::Told;
use turn_ledger::{BATCH_LIMIT, ENTRY_BYTES, Entry, Ledger};

/// `ledger`: an empty ledger in the place of what was in hand.
pub fn new_ledger(hand: &mut Hand, told: &mut Told) -> Scene {
    match Ledger::new(hand.alloc) {
        Ok(ledger) => Scene::Ledger(ledger),
        Err(error) => {
            told.refused(&error);
            Scene::Nothing
        }
    }
}

/// A word of a ledger.
pub fn ask(ledger: &mut Ledger, hand: &mut Hand, name: &str, said: &mut Said<'_>, told: &mut Told) {
    match name {
        "show" => told.ledger(0, ledger),
        "balance" => told.value(&ledger.balance(said.small())),
        "sealed" => told.value(&ledger.is_sealed(said.small())),
        "post" | "write" | "say" => take_each(ledger, hand, name, said, told),
        "screen" => screen(ledger, hand, said, told),
        "account" => set_account(hand, said, told),
        "restore" => {
            told.value(&ledger.restore(&hand.snapshot.balances, &hand.snapshot.sealed));
        }
        "read" => read_place(said, told),
        _ => told.line("no such word of a ledger"),
    }
}

// `screen [ENTRY]..`
fn screen(ledger: &Ledger, hand: &mut Hand, said: &mut Said<'_>, told: &mut Told) {
    read_entries(said, &mut hand.entries);
    if !said.is_right(told) {
        return;
    }
    if hand.entries.len() > BATCH_LIMIT {
        told.line("not asked: too many entries");
    } else {
        let verdicts = ledger.screen(hand.entries.as_slice());
        told.verdicts(&verdicts);
    }
}

// `post [ENTRY]..`: one after another. `write ENTRY..`: the bytes of each. `say ENTRY..`: each in
// words.
fn take_each(
    ledger: &mut Ledger,
    hand: &mut Hand,
    name: &str,
    said: &mut Said<'_>,
    told: &mut Told,
) {
    read_entries(said, &mut hand.entries);
    if !said.is_right(told) {
        return;
    }
    for entry in hand.entries.iter() {
        match name {
            "post" => told.posted(&ledger.post(entry)),
            "write" => told.bytes(&entry.write()),
            _ => told.text_of(entry),
        }
    }
}

// `read HEX`: the entry of 32 bytes, and which of them no entry of its kind has.
fn read_place(said: &mut Said<'_>, told: &mut Told) {
    let mut place = [0; ENTRY_BYTES];
    said.bytes(&mut place);
    told.value(&Entry::read(&place));
    told.named("first wrong", &Entry::first_wrong(&place, true));
    told.named("without seals", &Entry::first_wrong(&place, false));
}
