//! What a power loss leaves of a device.
use crate::bench::Bench;
use crate::devices::read_sector;
use crate::said::Said;
use crate::scene::{Hand, Scene};
use crate::told::Told;
use sector_device::{Device, Picks, SECTOR, Sector};
use std::mem;

/// `pick AT HEX`: what the next power loss leaves in a sector, which the last byte fills.
pub fn pick(hand: &mut Hand, said: &mut Said<'_>, told: &mut Told) {
    let at = said.number();
    let sector = read_sector(said);
    if said.is_right(told) && hand.picks.list.push((at, sector)).is_err() {
        told.line("no memory");
    }
}

/// `crash [PATTERN]`: by the picks in hand, and behind them by a letter for each sector that is
/// pending, in order, and again from the first: `z` zeros, `a` an open gate and noise, `s` noise,
/// `o` what stood there before; else what was written is left.
pub fn crash(device: Bench, hand: &mut Hand, said: &mut Said<'_>, told: &mut Told) -> Scene {
    let pattern = said.word().unwrap_or("").as_bytes();
    let mut picks = Picks {
        list: Vec::new(hand.alloc),
    };
    mem::swap(&mut picks, &mut hand.picks);
    let mut rest = pattern.iter();
    for at in 0..device.sectors() {
        if pattern.is_empty() || !device.is_pending(at) {
            continue;
        }
        let letter = match rest.next() {
            Some(letter) => *letter,
            None => {
                rest = pattern.iter();
                rest.next().copied().unwrap_or(b'n')
            }
        };
        if let Some(sector) = left(&device, at, letter) {
            if picks.list.push((at, sector)).is_err() {
                told.line("no memory");
            }
        }
    }
    Scene::Device(device.crash(&picks))
}

// What a letter leaves in a sector.
fn left(device: &Bench, at: u64, letter: u8) -> Option<Sector> {
    match letter {
        b'z' => Some([0; SECTOR]),
        b'a' => {
            let mut sector = [0x77; SECTOR];
            sector[0] = 0xa5;
            Some(sector)
        }
        b's' => Some([0x77; SECTOR]),
        b'o' => device.before(at).copied(),
        _ => None,
    }
}
