ghost use Rattle.std.specs.Prelude.{◌*◌, ◌<◌, ◌≤◌, ◌^◌, length};

use crate::opening::SECTOR_LENGTH;
use sector_device::Sector;
use std::fs::OpenFile;
use std::io;
use std::os::unix::fs::FileExt;

/// Grows a file of `from` sectors until it has `to` of them. After an error it has the length from
/// before, if the system can give it that.
pub(crate) fn grow<F: OpenFile + FileExt>(
    file: &F,
    from: u64,
    to: u64,
    zeros: &[Sector],
) -> io::Result<()>
    requires found { from * 512 < 2 ^ 63 }
    requires room { to * 512 < 2 ^ 63 }
    requires some { 0 < length zeros.now }
{
    let grown = add_zero_sectors(file, from, to, zeros);
    if grown.is_err() {
        // What is told is that the growth failed, whatever comes of this.
        let _ = file.set_len(from * SECTOR_LENGTH);
    }
    grown
}

// Each piece has its length before its zeros, so that whenever this ends, the file has whole
// sectors.
fn add_zero_sectors<F: OpenFile + FileExt>(
    file: &F,
    from: u64,
    to: u64,
    zeros: &[Sector],
) -> io::Result<()>
    requires room { to * 512 < 2 ^ 63 }
    requires some { 0 < length zeros.now }
{
    let mut at = from;
    while at < to {
        let count = (to - at).min(zeros.len() as u64);
        file.set_len((at + count) * SECTOR_LENGTH)?;
        file.write_all_at(zeros[..count as usize].as_flattened(), at * SECTOR_LENGTH)?;
        at += count;
    }
    Ok(())
}
