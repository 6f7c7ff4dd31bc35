//! The words of an archive in memory.
use crate::console::{Stage, Supply};
use office_day::MemoryArchive;
use test_words::{Bench, Said, Told};

/// `archive FIRST`: an archive in memory, of a ledger whose next batch has that number.
pub fn new_archive(supply: &mut Supply, said: &mut Said<'_>, told: &mut Told) {
    let first = said.number();
    if said.is_right(told) {
        supply.archive = Some(MemoryArchive::new(supply.hand.alloc, first));
    }
}

/// `catch_up`: adds to that archive what it lacks of the ledger, and tells whether it never failed,
/// and its batches.
pub fn catch_up(device: Bench, supply: &mut Supply, told: &mut Told) -> Stage {
    let Some(archive) = &mut supply.archive else {
        told.line("not asked: no archive");
        return Stage::alone(device);
    };
    let (device, is_kept) = archive.catch_up(device);
    told.value(&is_kept);
    tell_batches(archive, told);
    Stage::alone(device)
}

/// A line for each batch of an archive.
pub fn tell_batches(archive: &MemoryArchive, told: &mut Told) {
    for batch in archive.batches() {
        told.value(&batch.as_slice());
    }
}
