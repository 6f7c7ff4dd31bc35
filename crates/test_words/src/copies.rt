//! Words that copy or list what a device holds. The device in hand is the old one, and the other
//! one the new one.
ghost use Rattle.std.specs.Prelude.{◌≤◌};

use crate::bench::Bench;
use crate::listings::{listing_of, sound_of, tell_next};
use crate::said::Said;
use crate::scene::{Hand, Scene};
use crate::told::Told;
use gate_journal::OldJournal;
use journal_recovery::{
    MigrateRefusal, OpenRefusal, Recovered, copy, may_hold_postings, migrate, recover,
};
use ledger_damage::locate;
use ledger_reading::{Listing, Sound};
use std::alloc::Global;

/// `migrate SLOTS`, `copy SLOTS`: an older ledger, or one of the present layout, to the other
/// device.
pub fn to_other(
    device: Bench,
    hand: &mut Hand,
    name: &str,
    said: &mut Said<'_>,
    told: &mut Told,
) -> Scene {
    let slots = said.number();
    let Some(new) = &mut hand.other else {
        told.line("not asked: no other device");
        return Scene::Device(device);
    };
    if slots == 0 {
        told.line("not asked: no slots");
        return Scene::Device(device);
    }
    let (device, made) = copied(hand.alloc, device, new, name, slots);
    told.done(&made);
    Scene::Device(device)
}

fn copied(
    alloc: Global,
    device: Bench,
    new: &mut Bench,
    name: &str,
    slots: u64,
) -> (Bench, Result<(), MigrateRefusal>)
    requires { 1 ≤ slots }
{
    match name {
        "migrate" => migrate(alloc, device, new, slots),
        _ => copy(alloc, device, new, slots),
    }
}

/// `old`: opens the journal of an older ledger, tells its numbers, its balances and its records,
/// and lets go of it.
pub fn show_old(device: Bench, told: &mut Told) -> Scene {
    match OldJournal::open(device) {
        Ok(mut journal) => {
            tell_old(&mut journal, told);
            Scene::Device(journal.into_device())
        }
        Err(refused) => Scene::Device(told.handed_back(refused)),
    }
}

fn tell_old(journal: &mut OldJournal<Bench>, told: &mut Told) {
    told.named("version, slots", &(journal.version(), journal.slots()));
    told.named("bank, epoch", &(journal.live_bank(), journal.epoch()));
    told.named("base, next", &(journal.base(), journal.next()));
    match journal.read_balances() {
        Ok(balances) => told.value(&balances.as_slice()),
        Err(refusal) => told.refused(&refusal),
    }
    for number in journal.base()..journal.next() {
        if number < journal.base() || number >= journal.next() {
            break;
        }
        told.record_read(&journal.read_record(number));
    }
}

/// `list`: what a ledger of any layout holds, and each record that is in sight.
pub fn list(device: Bench, hand: &mut Hand, told: &mut Told) -> Scene {
    match sound_of(hand.alloc, device) {
        Ok(sound) => list_all(sound, told),
        Err(refused) => Scene::Device(told.handed_back(refused)),
    }
}

fn list_all(sound: Sound<Bench>, told: &mut Told) -> Scene {
    let numbers = sound.journal.numbers();
    told.value(&numbers);
    told.ledger(numbers.next, &sound.ledger);
    match listing_of(sound) {
        Ok(mut listing) => {
            tell_all(&mut listing, told);
            Scene::Device(listing.into_device())
        }
        Err(refused) => Scene::Device(told.handed_back(refused)),
    }
}

fn tell_all(listing: &mut Listing<Bench>, told: &mut Told) {
    for _ in 0..listing.left() {
        tell_next(listing, told);
    }
    told.named("left", &listing.left());
}

/// `recover`: what the device holds, as a ledger.
pub fn recovered(device: Bench, hand: &mut Hand, told: &mut Told) -> Scene {
    match found(hand.alloc, device) {
        Ok(found) => {
            told.ledger(found.journal.next(), &found.ledger);
            Scene::Device(found.journal.into_device())
        }
        Err(refused) => Scene::Device(told.handed_back(refused)),
    }
}

fn found(alloc: Global, device: Bench) -> Result<Recovered<Bench>, (Bench, OpenRefusal)> {
    recover(alloc, device)
}

/// `locate`: where that is for which a device isn't recovered.
pub fn located(device: Bench, hand: &mut Hand, told: &mut Told) -> Scene {
    match found(hand.alloc, device) {
        Ok(found) => {
            told.line("sound");
            Scene::Device(found.journal.into_device())
        }
        Err((mut device, refusal)) => {
            told.outcome(&locate(&mut device, refusal));
            Scene::Device(device)
        }
    }
}

/// `postings`: whether the device may hold postings.
pub fn postings(device: Bench, hand: &mut Hand, told: &mut Told) -> Scene {
    let (device, answer) = may_hold_postings(hand.alloc, device);
    told.outcome(&answer);
    Scene::Device(device)
}
