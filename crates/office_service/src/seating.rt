//! Which station each counter of an office has.
use crate::faults::OfficeFault;
use crate::locks::SeatedFolder;
use crate::serving::ServeOptions;
use crate::status::own_number;
use ledger_counters::{
    CountersFault, LastUse, Roster, RosterFault, RosterPath, is_disk, read_roster, write_roster,
};
use office_sessions::Identity;
use std::alloc::{AllocError, Global};
use std::fs::{File, Files};
use std::mem;
use std::time::Clock;

/// The name of the terminal's counter.
pub const TERMINAL: &str = "terminal";

/// The stations of the counters that an office is opened for.
#[derive(Drop)]
pub(crate) struct Seating<'a> {
    /// Where that is kept.
    pub place: RosterPath<'a>,
    roster: Roster,
    /// Those of the counters as they are asked for, and that of the terminal behind them.
    pub seats: Vec<u8>,
    folders: Vec<SeatedFolder>,
}

impl<'a> Seating<'a> {
    /// Gives each counter its station, on a ledger whose next batch has this number. That, and that
    /// an office is open, is written down durably.
    pub(crate) fn begin<R: Files<File = File> + AllocGlobal + Clock>(
        rt: &R,
        serving: &ServeOptions<'a>,
        next: u64,
    ) -> Result<Seating<'a>, OfficeFault<'a>> {
        let place = place_of(rt, serving)?;
        let mut roster = roster_of(rt, serving, place, next)?;
        roster.settle(next);
        let seats = seats_of(rt.alloc(), serving, &mut roster).map_err(|cause| CountersFault {
            place,
            cause,
        })?;
        let folders = folders_of(rt.alloc(), serving, seats.as_slice())?;
        let seating = Seating {
            place,
            roster,
            seats,
            folders,
        };
        seating.write(rt)?;
        Ok(seating)
    }

    /// How many stations the office has, where so many are planned: no counter is without its own.
    pub(crate) fn stations(&self, planned: u64) -> u64 {
        planned.max(self.roster.names().len() as u64)
    }

    /// From which batch on only offices posted.
    pub(crate) fn since(&self) -> u64 {
        self.roster.since()
    }

    /// By what the counter of a station is known.
    pub(crate) fn identity(&self, alloc: Global, station: u8) -> Result<Identity, AllocError> {
        let ledger = self.roster.ledger();
        match self.roster.names().get(station as usize) {
            Some(name) => Ok(Identity {
                name: name.as_str().to_owned(alloc)?,
                ledger,
            }),
            None => Ok(Identity::nobody(alloc)),
        }
    }

    /// The folders of the counters, once.
    pub(crate) fn take_folders(&mut self, alloc: Global) -> Vec<SeatedFolder> {
        mem::replace(&mut self.folders, Vec::new(alloc))
    }

    /// Keeps the same counters in an archive.
    pub(crate) fn write_into<R: Files<File = File> + AllocGlobal>(
        &self,
        rt: &R,
        archive: &'a str,
    ) -> Result<(), OfficeFault<'a>> {
        Ok(write_roster(rt, RosterPath::Inside(archive), &self.roster)?)
    }

    /// Writes down durably that the office is closed, where the next batch has this number.
    pub(crate) fn close<R: Files<File = File> + AllocGlobal>(
        &mut self,
        rt: &R,
        next: u64,
    ) -> Result<(), OfficeFault<'a>> {
        self.roster.leave(LastUse::Closed(next));
        self.write(rt)
    }

    fn write<R: Files<File = File> + AllocGlobal>(&self, rt: &R) -> Result<(), OfficeFault<'a>> {
        Ok(write_roster(rt, self.place, &self.roster)?)
    }
}

// Where the counters are kept: beside the ledger, unless it is said where, which has to be said of
// a disk.
fn place_of<'a, R: Files<File = File>>(
    rt: &R,
    serving: &ServeOptions<'a>,
) -> Result<RosterPath<'a>, OfficeFault<'a>> {
    if let Some(path) = serving.counters_file {
        return Ok(RosterPath::At(path));
    }
    if is_disk(rt, serving.path) {
        let (place, cause) = (RosterPath::At(serving.path), RosterFault::Disk);
        return Err(OfficeFault::from(CountersFault { place, cause }));
    }
    Ok(RosterPath::Beside(serving.path))
}

// The roster that is kept there; a new one of an empty ledger that has none, and where that is
// asked for.
fn roster_of<'a, R: Files<File = File> + AllocGlobal + Clock>(
    rt: &R,
    serving: &ServeOptions<'a>,
    place: RosterPath<'a>,
    next: u64,
) -> Result<Roster, OfficeFault<'a>> {
    if serving.format.is_some() || serving.counters_anew {
        return Ok(Roster::new(rt.alloc(), own_number(rt), next));
    }
    match read_roster(rt, place)? {
        Some(roster) => Ok(roster),
        None if next == 0 => Ok(Roster::new(rt.alloc(), own_number(rt), next)),
        None => {
            let cause = RosterFault::Missing;
            Err(OfficeFault::from(CountersFault { place, cause }))
        }
    }
}

// The stations of those counters.
fn seats_of(
    alloc: Global,
    serving: &ServeOptions<'_>,
    roster: &mut Roster,
) -> Result<Vec<u8>, RosterFault> {
    let mut seats = Vec::new(alloc);
    for counter in &serving.counters {
        seats.push(roster.seat(alloc, counter.name)?)?;
    }
    if serving.terminal {
        seats.push(roster.seat(alloc, TERMINAL)?)?;
    }
    Ok(seats)
}

// The folders of the counters that have these stations.
fn folders_of(
    alloc: Global,
    serving: &ServeOptions<'_>,
    seats: &[u8],
) -> Result<Vec<SeatedFolder>, AllocError> {
    let mut folders = Vec::with_capacity(alloc, serving.counters.len())?;
    for (counter, station) in serving.counters.iter().zip(seats.iter()) {
        folders.push(SeatedFolder {
            folder: counter.folder.to_owned(alloc)?,
            station: *station,
        })?;
    }
    Ok(folders)
}
