//! Calls beyond any number at which a body might have given up.
ghost use Rattle.device_files.specs.RealFile.{unknown_sectors};

use crate::journals::PLACE;
use crate::recovery::recovered;
use gate_journal::format;
use sector_device::{Device, DeviceFault, SECTOR, Sector};

// A device of so many sectors: a journal with 1,000,000 slots in each bank and one record, and
// behind its gate zeros alone. It counts what is written, and keeps nothing of it.
#[derive(Drop)]
struct Sparse {
    sectors: u64,
    writes: u64,
    syncs: u64,
}

impl Device for Sparse {
    ghost state = { λ s. unknown_sectors (record { sectors = s.sectors; failures = 0 }) };

    fn sectors(&self) -> u64 {
        self.sectors
    }

    fn read(&mut self, at: u64, into: &mut Sector) -> Result<(), DeviceFault> {
        *into = [0; SECTOR];
        into[..16].copy_from_slice(first_bytes(at));
        if at == 20 {
            into[32..64].copy_from_slice(PLACE);
        }
        Ok(())
    }

    fn write(&mut self, _at: u64, _from: &Sector) -> Result<(), DeviceFault> {
        self.writes = self.writes.saturating_add(1);
        Ok(())
    }

    fn sync(&mut self) -> Result<(), DeviceFault> {
        self.syncs = self.syncs.saturating_add(1);
        Ok(())
    }

    ghost sound = { λ s honest. absurd honest };
}

// The first bytes of a sector, by the tables of the formats: a superblock of version 3, an open
// gate, a head, and a record of one place.
fn first_bytes(at: u64) -> &'static [u8; 16] {
    match at {
        0 => b"TLDG\x00\x03\x00\x00\x00\x00\x00\x00\x00\x0f\x42\x40",
        1 | 21 => b"\xa5\x00\x00\x00\x00\x00\x00\x00\x00\x00\x00\x00\x00\x00\x00\x00",
        2 => b"TLBK\x00\x00\x00\x00\x00\x00\x00\x00\x00\x00\x00\x00",
        20 => b"TLB1\x00\x00\x00\x01\x00\x00\x00\x00\x00\x00\x00\x00",
        _ => &[0; 16],
    }
}

// As many sectors again are not used.
fn a_million_slots() -> Sparse {
    Sparse {
        sectors: 8_000_000,
        writes: 0,
        syncs: 0,
    }
}

#[test]
fn a_device_of_8_000_000_sectors_is_recovered(rt: HostRuntime) {
    let found = recovered(&rt, rt.alloc(), a_million_slots());
    assert!(rt;
        found.ledger.balance(1) == Some(500)
            && (found.journal.next(), found.journal.room()) == (1, 999_999)
    );
}

// A head, seventeen sectors of a snapshot, the gates of the slots and of both banks, and the
// superblock.
#[test]
fn a_million_slots_are_formatted(rt: HostRuntime) {
    let mut device = a_million_slots();
    let answer = format(&mut device, 1_000_000);
    assert!(rt; (answer, device.writes, device.syncs) == (Ok(()), 1_000_021, 1));
}
