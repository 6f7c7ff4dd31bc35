//! The words of a listing, out of which an archive is made. The ledgers of the archive are on the
//! other device.
use crate::bench::Bench;
use crate::devices::set_fault;
use crate::said::Said;
use crate::scene::{Hand, Scene};
use crate::told::Told;
use gate_journal::{MOST_SLOTS, ReadRefusal};
use journal_recovery::OpenRefusal;
use ledger_reading::{Listing, Seam, Sound, add, compare, follow, look, skip_to};
use std::alloc::Global;

/// `listing`: lists what the device holds.
pub fn open_listing(device: Bench, hand: &mut Hand, told: &mut Told) -> Scene {
    match listed(hand.alloc, device, told) {
        Ok(listing) => {
            tell_numbers(&listing, told);
            Scene::Listing(listing)
        }
        Err(device) => Scene::Device(device),
    }
}

// What a device holds, or the device, if that can't be listed, which is told.
fn listed(alloc: Global, device: Bench, told: &mut Told) -> Result<Listing<Bench>, Bench> {
    let listed = match sound_of(alloc, device) {
        Ok(sound) => listing_of(sound),
        Err(refused) => return Err(told.handed_back(refused)),
    };
    listed.map_err(|refused| told.handed_back(refused))
}

/// What a device holds, if it is sound.
pub fn sound_of(alloc: Global, device: Bench) -> Result<Sound<Bench>, (Bench, OpenRefusal)> {
    look(alloc, device)
}

/// Its records, to be listed.
pub fn listing_of(sound: Sound<Bench>) -> Result<Listing<Bench>, (Bench, ReadRefusal)> {
    sound.journal.list(sound.ledger)
}

/// A word of a listing.
pub fn ask(
    listing: &mut Listing<Bench>,
    hand: &mut Hand,
    name: &str,
    said: &mut Said<'_>,
    told: &mut Told,
) {
    match name {
        "numbers" => tell_numbers(listing, told),
        "ledger" => told.ledger(listing.at(), listing.ledger()),
        "next" => tell_next(listing, told),
        "skip" => skip(listing, said, told),
        "add" => add_to_other(listing, hand, said, told),
        "follow" => follow_other(listing, hand, told),
        "compare" => compare_other(listing, hand, told),
        "fault" => set_fault(hand, said, told),
        "behind" => behind(listing, hand, told),
        "lead" => lead(listing, hand, told),
        _ => told.line("no such word of a listing"),
    }
}

fn tell_numbers(listing: &Listing<Bench>, told: &mut Told) {
    told.named(
        "at, end, left",
        &(listing.at(), listing.end(), listing.left()),
    );
}

/// `next`: the next record, with its entries.
pub fn tell_next(listing: &mut Listing<Bench>, told: &mut Told) {
    match listing.next() {
        Ok(Some(listed)) => {
            told.named("record", &(listed.sequence, listed.record.station()));
            told.value(&listed.entries.as_slice());
        }
        Ok(None) => told.line("nothing"),
        Err(refusal) => told.refused(&refusal),
    }
}

// `skip END`
fn skip(listing: &mut Listing<Bench>, said: &mut Said<'_>, told: &mut Told) {
    let end = said.number();
    if !said.is_right(told) {
        return;
    }
    if end < listing.at() || end > listing.end() {
        told.line("not asked: no such record");
        return;
    }
    told.done(&skip_to(listing, end));
}

// The other device, which isn't in hand then. If there is none, that is told.
fn taken(hand: &mut Hand, told: &mut Told) -> Option<Bench> {
    let other = hand.other.take();
    if other.is_none() {
        told.line("not asked: no other device");
    }
    other
}

// `add COUNT`: a ledger of the next records, that many, on the other device.
fn add_to_other(
    listing: &mut Listing<Bench>,
    hand: &mut Hand,
    said: &mut Said<'_>,
    told: &mut Told,
) {
    let count = said.number();
    if count == 0 || count > listing.left() || count > MOST_SLOTS {
        told.line("not asked: not as many records");
        return;
    }
    let Some(new) = taken(hand, told) else {
        return;
    };
    let new = match add(listing, new, count) {
        Ok(new) => new,
        Err(refused) => told.handed_back(refused),
    };
    hand.other = Some(new);
}

// `follow`: leads the listing on to the end of the ledger on the other device.
fn follow_other(listing: &mut Listing<Bench>, hand: &mut Hand, told: &mut Told) {
    let Some(other) = taken(hand, told) else {
        return;
    };
    hand.other = match sound_of(hand.alloc, other) {
        Ok(sound) => {
            let made = follow(listing, sound.journal.numbers().next, &sound.ledger);
            told.done(&made);
            Some(device_of(sound))
        }
        Err(refused) => Some(told.handed_back(refused)),
    };
}

fn device_of(sound: Sound<Bench>) -> Bench {
    match listing_of(sound) {
        Ok(listing) => listing.into_device(),
        Err((device, _)) => device,
    }
}

// `compare`: finds out whether the listing has the records of the ledger on the other device.
fn compare_other(listing: &mut Listing<Bench>, hand: &mut Hand, told: &mut Told) {
    let Some(other) = taken(hand, told) else {
        return;
    };
    hand.other = match listed(hand.alloc, other, told) {
        Ok(mut newest) => {
            compare_with(listing, &mut newest, told);
            Some(newest.into_device())
        }
        Err(other) => Some(other),
    };
}

fn compare_with(listing: &mut Listing<Bench>, newest: &mut Listing<Bench>, told: &mut Told) {
    let end = newest.end();
    if listing.at() > end || end > listing.end() {
        told.line("not asked: it doesn't reach there");
        return;
    }
    told.done(&compare(listing, newest));
}

// `behind`: the seam behind the last record, which is in hand then.
fn behind(listing: &Listing<Bench>, hand: &mut Hand, told: &mut Told) {
    if listing.left() > 0 {
        told.line("not asked: it isn't at its end");
        return;
    }
    match Seam::behind(hand.alloc, listing) {
        Ok(seam) => hand.seam = Some(seam),
        Err(error) => told.refused(&error),
    }
}

// `lead`: leads the listing on to the seam in hand.
fn lead(listing: &mut Listing<Bench>, hand: &mut Hand, told: &mut Told) {
    match &hand.seam {
        Some(seam) => told.done(&seam.lead(listing)),
        None => told.line("not asked: no seam"),
    }
}
