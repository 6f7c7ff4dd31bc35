//! Where on a device something is wrong.
ghost use Rattle.std.specs.Prelude.{◌≡◌, ◌+◌, ◌*◌, ◌<◌, ◌^◌};

use sector_device::SECTOR;
use std::fmt;

/// A byte of a device.
#[derive(Clone, Copy, Debug, PartialEq, Eq)]
pub struct Place {
    /// The number of the bank that the sector is in, 0 or 1. Sector 0 is in none, and layout 1 has
    /// none.
    pub bank: Option<u8>,
    /// The slot whose body or gate the sector is, counted from 0 in its bank, if it is one.
    pub slot: Option<u64>,
    /// The number of the sector.
    pub sector: u64,
    /// The byte of the sector, 0 to 511.
    pub byte: u16,
    pub ghost within: { byte < 512 },
}

impl Place {
    /// The number of the byte in a file, in which sector k begins at byte 512·k. If it doesn't fit
    /// into 64 bits, which is so of no device that has a layout, the answer is `2^64 - 1`.
    pub fn offset(self) -> u64
        ensures { self.sector * 512 + self.byte < 2 ^ 64
            → result ≡ self.sector * 512 + self.byte }
    {
        self.sector
            .saturating_mul(SECTOR as u64)
            .saturating_add(self.byte as u64)
    }
}

/// The sector and the byte, and behind them the bank and the slot that it is in.
impl fmt::Display for Place {
    fn fmt<W: fmt::Write>(&self, f: &mut fmt::Formatter<W>) -> fmt::Result {
        let (sector, byte) = (self.sector, self.byte);
        write!(f, "sector {sector}, byte {byte}")?;
        if let Some(bank) = self.bank {
            write!(f, ", bank {bank}")?;
        }
        if let Some(slot) = self.slot {
            write!(f, ", slot {slot}")?;
        }
        Ok(())
    }
}
