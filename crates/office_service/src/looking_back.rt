//! A station's postings in an archive.
use device_files::{LockMode, ReadOnlyFile};
use journal_recovery::{Recovered, recover};
use ledger_folder::{Volume, end_of, numbers_in};
use office_sessions::{LookAnswer, last_posting};
use std::fs::{File, Files};
use turn_clerk::Posting;

/// The posting of a station with the greatest reference in the newest ledger of an archive that has
/// one of it, and the number of the first batch that was looked at: that of the archive's first
/// one, or `first` if that is greater. None if it has no ledger, or one can't be read, or doesn't
/// have the batches that its name tells.
pub(crate) fn last_in_archive<R: Files<File = File> + AllocGlobal + Clone + Drop>(
    rt: &R,
    folder: &str,
    station: u8,
    first: u64,
) -> Option<LookAnswer> {
    let numbers = numbers_in(rt, folder).ok()?;
    let since = first.max(*numbers.first()?);
    for base in numbers.iter().rev() {
        let seen = last_in_ledger(rt, folder, *base, station, first)?;
        if seen.is_some() {
            return Some(LookAnswer {
                posting: seen,
                since,
            });
        }
    }
    Some(LookAnswer {
        posting: None,
        since,
    })
}

// The posting of a station with the greatest reference in one ledger of an archive; None if that
// can't be read, or doesn't have just the batches that it should.
fn last_in_ledger<R: Files<File = File> + AllocGlobal + Clone + Drop>(
    rt: &R,
    folder: &str,
    base: u64,
    station: u8,
    first: u64,
) -> Option<Option<Posting>> {
    let end = end_of(rt, folder, base).ok()?;
    let path = format!(in rt.alloc(); "{}", Volume { folder, base }).ok()?;
    let device = ReadOnlyFile::open(rt, rt.alloc(), path.as_str(), LockMode::Shared).ok()?;
    let Recovered { journal, ledger } = recover(rt.alloc(), device).ok()?;
    let (mut journal, mut ledger) = (journal, ledger);
    let seen = last_posting(&mut journal, &mut ledger, station, first)?;
    // one that begins elsewhere than its name says, or isn't full, hides batches
    (journal.next() == end && seen.since == first.max(base)).then_some(seen.posting)
}
