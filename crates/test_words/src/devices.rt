//! The words of a device that nothing stands on.
use crate::bench::Bench;
use crate::builders;
use crate::copies::{list, located, postings, recovered, show_old, to_other};
use crate::crashes::{crash, pick};
use crate::journals::open_journal;
use crate::listings::open_listing;
use crate::said::Said;
use crate::scene::{Hand, Scene};
use crate::stacked::{call, stack};
use crate::switch::{ANY, NEVER, READS, RUNS, SYNCS, Switch, WRITES};
use crate::told::Told;
use gate_journal::{ACCOUNTS, FirstSector, format, format_with};
use sector_device::{Device, SECTOR, Sector};
use std::alloc::AllocError;
use std::sync::Arc;

/// `device N`: a device of N sectors, all zero, in the place of what was in hand.
pub fn new_device(hand: &mut Hand, said: &mut Said<'_>, told: &mut Told) -> Scene {
    let sectors = said.small();
    match device(hand, sectors as u64) {
        Ok(device) => Scene::Device(device),
        Err(error) => {
            told.refused(&error);
            Scene::Nothing
        }
    }
}

fn device(hand: &mut Hand, sectors: u64) -> Result<Bench, AllocError> {
    hand.switch = Arc::new(hand.alloc, Switch::new())?;
    Bench::new(hand.alloc, sectors, Arc::try_clone(&hand.switch)?)
}

/// A word of a device, as what is in hand then.
pub fn run(
    device: Bench,
    hand: &mut Hand,
    name: &str,
    said: &mut Said<'_>,
    told: &mut Told,
) -> Scene {
    match name {
        "journal" => open_journal(device, told),
        "fill" => builders::begin(device, hand, said, told),
        "listing" => open_listing(device, hand, told),
        "crash" => crash(device, hand, said, told),
        "ahead" | "stop" | "only" => stack(device, hand, name, told),
        _ => look_at(device, hand, name, said, told),
    }
}

// What takes the device, and hands it back.
fn look_at(
    device: Bench,
    hand: &mut Hand,
    name: &str,
    said: &mut Said<'_>,
    told: &mut Told,
) -> Scene {
    match name {
        "recover" => recovered(device, hand, told),
        "locate" => located(device, hand, told),
        "postings" => postings(device, hand, told),
        "migrate" | "copy" => to_other(device, hand, name, said, told),
        "old" => show_old(device, told),
        "list" => list(device, hand, told),
        _ => asked(device, hand, name, said, told),
    }
}

// What asks the device, which stays in hand.
fn asked(
    mut device: Bench,
    hand: &mut Hand,
    name: &str,
    said: &mut Said<'_>,
    told: &mut Told,
) -> Scene {
    ask(&mut device, hand, name, said, told);
    Scene::Device(device)
}

fn ask(device: &mut Bench, hand: &mut Hand, name: &str, said: &mut Said<'_>, told: &mut Told) {
    match name {
        "read" | "write" | "sync" => call(device, name, said, told),
        "put" | "later" => put(device, name, said, told),
        "twin" => twin(device, hand, told),
        "sector" => show_sector(device, said, told),
        "first" => show_first(device, told),
        "pending" => show_pending(device, hand, told),
        "calls" => show_calls(device, told),
        "format" => format_device(device, said, told),
        "format_with" => format_device_with(device, hand, said, told),
        _ => prepare(hand, name, said, told),
    }
}

// What is put together for a later call.
fn prepare(hand: &mut Hand, name: &str, said: &mut Said<'_>, told: &mut Told) {
    match name {
        "pick" => pick(hand, said, told),
        "fault" => set_fault(hand, said, told),
        "account" => set_account(hand, said, told),
        _ => told.line("no such word of a device"),
    }
}

// `format SLOTS`
fn format_device(device: &mut Bench, said: &mut Said<'_>, told: &mut Told) {
    let slots = said.number();
    if slots == 0 {
        told.line("not asked: no slots");
        return;
    }
    told.done(&format(device, slots));
}

// `format_with SLOTS BASE`, and the accounts in hand
fn format_device_with(device: &mut Bench, hand: &mut Hand, said: &mut Said<'_>, told: &mut Told) {
    let (slots, base) = (said.number(), said.number());
    if slots == 0 {
        told.line("not asked: no slots");
        return;
    }
    told.done(&format_with(device, slots, base, &hand.snapshot));
}

/// `account A BALANCE SEALED`: an account of the snapshot in hand, with the number 1 if it is
/// sealed.
pub fn set_account(hand: &mut Hand, said: &mut Said<'_>, told: &mut Told) {
    let (account, balance, sealed) = (said.number(), said.number(), said.number());
    let place = account.wrapping_sub(1) as usize;
    if place >= ACCOUNTS {
        said.note_wrong();
    }
    if said.is_right(told) && place < ACCOUNTS {
        hand.snapshot.balances[place] = balance;
        hand.snapshot.sealed[place] = sealed > 0;
    }
}

/// The sector that begins with the bytes of the next word, of which the last fills it.
pub fn read_sector(said: &mut Said<'_>) -> Sector {
    let mut sector = [0; SECTOR];
    let count = said.bytes(&mut sector);
    let (first, rest) = sector.split_at_mut(count.min(SECTOR));
    rest.fill(first.last().copied().unwrap_or(0));
    sector
}

// `put AT OFFSET HEX`: bytes that somebody else wrote. `later AT OFFSET HEX`: the same, once the
// sector was read.
fn put(device: &mut Bench, name: &str, said: &mut Said<'_>, told: &mut Told) {
    let (at, offset) = (said.number(), said.small());
    let Some(sector) = device.sector(at) else {
        told.line("no such sector");
        return;
    };
    let mut sector = *sector;
    read_behind(&mut sector, offset as usize, said);
    if !said.is_right(told) {
        return;
    }
    if name == "later" {
        device.put_later(at, &sector);
    } else if device.put(at, &sector).is_err() {
        told.line("no memory");
    }
}

// Puts the bytes of the next word into a sector, from that place on.
fn read_behind(sector: &mut Sector, offset: usize, said: &mut Said<'_>) {
    let (_, rest) = sector.split_at_mut(offset.min(SECTOR));
    said.bytes(rest);
}

// `sector AT`: its bytes up to the last one that isn't zero.
fn show_sector(device: &Bench, said: &mut Said<'_>, told: &mut Told) {
    match device.sector(said.number()) {
        Some(sector) => told.bytes(sector),
        None => told.line("no such sector"),
    }
}

// `first`: what the first sector says of the journal behind it.
fn show_first(device: &Bench, told: &mut Told) {
    match device.sector(0) {
        Some(sector) => told.value(&FirstSector::of(sector)),
        None => told.line("no such sector"),
    }
}

// `twin`: the other device is another one with the same sectors, all of them durable.
fn twin(device: &Bench, hand: &mut Hand, told: &mut Told) {
    match twin_of(device, hand) {
        Ok(twin) => hand.other = Some(twin),
        Err(error) => told.refused(&error),
    }
}

fn twin_of(device: &Bench, hand: &mut Hand) -> Result<Bench, AllocError> {
    hand.other_switch = Arc::new(hand.alloc, Switch::new())?;
    let switch = Arc::try_clone(&hand.other_switch)?;
    let mut twin = Bench::new(hand.alloc, device.sectors(), switch)?;
    for at in 0..device.sectors() {
        if let Some(sector) = device.sector(at) {
            let _ = twin.put(at, sector);
        }
    }
    Ok(twin)
}

// `pending`: the sectors that a power loss may change.
fn show_pending(device: &Bench, hand: &mut Hand, told: &mut Told) {
    let mut pending = Vec::new(hand.alloc);
    for at in 0..device.sectors() {
        if device.is_pending(at) && pending.push(at).is_err() {
            told.line("no memory");
        }
    }
    told.named("pending", &pending);
}

// `calls`: what the device was called for since the word was last said.
fn show_calls(device: &mut Bench, told: &mut Told) {
    told.named("calls", &device.calls());
    device.forget_calls();
}

/// `fault none`, or `fault stop|once|twice any|read|write|sync|run K [K]`.
pub fn set_fault(hand: &mut Hand, said: &mut Said<'_>, told: &mut Told) {
    let kind = said.word().unwrap_or("");
    let kinds = kinds_of(said.word().unwrap_or(""));
    let left = if kind == "none" { NEVER } else { said.number() };
    let then = if kind == "twice" {
        said.number()
    } else {
        NEVER
    };
    if !matches!(kind, "none" | "stop" | "once" | "twice") {
        said.note_wrong();
    }
    if said.is_right(told) {
        hand.switch.set(kinds, left, then, kind == "stop");
    }
}

fn kinds_of(name: &str) -> u64 {
    match name {
        "read" => READS,
        "write" => WRITES,
        "sync" => SYNCS,
        "run" => RUNS,
        _ => ANY,
    }
}
