//! The files of rosters.
use crate::place::RosterPath;
use crate::refusal::{CountersFault, RosterFault};
use crate::roster::{LastUse, Roster};
use std::fs::{File, Files};
use std::io::{ErrorKind, Read, Write};
use std::{fs, io};

/// No roster has a longer file.
const LONGEST_FILE: u64 = 16_384;

/// The roster that is kept there, if there is one.
///
/// # Errors
/// [`CountersFault`].
pub fn read_roster<'a, R: Files<File = File> + AllocGlobal>(
    rt: &R,
    place: RosterPath<'a>,
) -> Result<Option<Roster>, CountersFault<'a>> {
    kept(rt, place).map_err(|cause| CountersFault { place, cause })
}

fn kept<R: Files<File = File> + AllocGlobal>(
    rt: &R,
    place: RosterPath<'_>,
) -> Result<Option<Roster>, RosterFault> {
    let path = format!(in rt.alloc(); "{place}")?;
    let file = match File::open(rt, path.as_str()) {
        Ok(file) => file,
        Err(error) if error.kind() == ErrorKind::NotFound => return Ok(None),
        Err(_) => return Err(RosterFault::Unread),
    };
    let mut text = String::new(rt.alloc());
    match file.take(LONGEST_FILE).read_to_string(&mut text) {
        Ok(_) => Ok(Some(Roster::parse(rt.alloc(), text.as_str())?)),
        Err(error) if error.kind() == ErrorKind::OutOfMemory => Err(RosterFault::Memory),
        Err(_) => Err(RosterFault::Unread),
    }
}

/// Keeps a roster there: after any crash it is this one that is kept, or the one before.
///
/// # Errors
/// [`CountersFault`].
pub fn write_roster<'a, R: Files<File = File> + AllocGlobal>(
    rt: &R,
    place: RosterPath<'a>,
    roster: &Roster,
) -> Result<(), CountersFault<'a>> {
    put(rt, place, roster).map_err(|cause| CountersFault { place, cause })
}

fn put<R: Files<File = File> + AllocGlobal>(
    rt: &R,
    place: RosterPath<'_>,
    roster: &Roster,
) -> Result<(), RosterFault> {
    let text = format!(in rt.alloc(); "{roster}")?;
    let path = format!(in rt.alloc(); "{place}")?;
    let unfinished = format!(in rt.alloc(); "{place}.new")?;
    match put_in_place(rt, unfinished.as_str(), path.as_str(), text.as_bytes()) {
        Ok(()) => Ok(()),
        Err(_) => {
            let _ = fs::remove_file(rt, unfinished.as_str());
            Err(RosterFault::Unwritten)
        }
    }
}

// Writes what is to stand at a path under another name first, all durably.
fn put_in_place<R: Files<File = File>>(
    rt: &R,
    unfinished: &str,
    path: &str,
    bytes: &[u8],
) -> io::Result<()> {
    let mut file = File::create(rt, unfinished)?;
    file.write_all(bytes)?;
    file.sync_all()?;
    fs::rename(rt, unfinished, path)?;
    sync_folder(rt, path)
}

/// Keeps no roster there any more, durably.
///
/// # Errors
/// [`CountersFault`].
pub fn remove_roster<'a, R: Files<File = File> + AllocGlobal>(
    rt: &R,
    place: RosterPath<'a>,
) -> Result<(), CountersFault<'a>> {
    remove(rt, place).map_err(|cause| CountersFault { place, cause })
}

fn remove<R: Files<File = File> + AllocGlobal>(
    rt: &R,
    place: RosterPath<'_>,
) -> Result<(), RosterFault> {
    let path = format!(in rt.alloc(); "{place}")?;
    match fs::remove_file(rt, path.as_str()) {
        Ok(()) => sync_folder(rt, path.as_str()).or(Err(RosterFault::Unwritten)),
        Err(error) if error.kind() == ErrorKind::NotFound => Ok(()),
        Err(_) => Err(RosterFault::Unwritten),
    }
}

/// A copy of a ledger has the same counters: what is kept at the first place is kept at the second
/// one too, and nothing if nothing is.
///
/// # Errors
/// [`CountersFault`].
pub fn take_along<'a, R: Files<File = File> + AllocGlobal>(
    rt: &R,
    from: RosterPath<'a>,
    to: RosterPath<'a>,
) -> Result<(), CountersFault<'a>> {
    match read_roster(rt, from)? {
        Some(roster) => write_roster(rt, to, &roster),
        None => remove_roster(rt, to),
    }
}

/// A script may post to the ledger from now on, which is noted if it has counters.
///
/// # Errors
/// [`CountersFault`].
pub fn note_script<'a, R: Files<File = File> + AllocGlobal>(
    rt: &R,
    place: RosterPath<'a>,
) -> Result<(), CountersFault<'a>> {
    match read_roster(rt, place)? {
        Some(mut roster) => {
            roster.leave(LastUse::Script);
            write_roster(rt, place, &roster)
        }
        None => Ok(()),
    }
}

// Makes the names in the folder of a path durable.
fn sync_folder<R: Files<File = File>>(rt: &R, path: &str) -> io::Result<()> {
    File::open(rt, folder_of(path))?.sync_all()
}

// The folder of a path.
fn folder_of(path: &str) -> &str {
    match path.rsplit_once('/') {
        Some(("", _)) => "/",
        Some((folder, _)) => folder,
        None => ".",
    }
}
