//! Stations, put together for a day and taken apart after it.
ghost use Rattle.std.specs.Prelude.{◌≡◌, length, map, IfOk};
ghost use Rattle.office_day.specs.Left.{left_of};

use line_lock::{Count, Seat};
use station_desk::{Desk, End, Station};
use std::alloc::{AllocError, Global};

/// What a station leaves of a run besides its seat.
#[derive(Drop)]
pub struct StationRemains {
    /// Where its clients' requests came in and the answers went out.
    pub desk: Desk,
    /// How it ended.
    pub end: End,
}

/// A station for each seat, with the desk at the same place.
pub(crate) fn seated<L: Count>(
    alloc: Global,
    seats: Vec<Seat<L>>,
    desks: Vec<Desk>,
) -> Result<Vec<Station<L>>, AllocError>
    requires as_many { length desks.items ≡ length seats.items }
    ensures seats { IfOk result (λ stations.
        map (λ station. station.seat) stations.items ≡ seats.items) }
    ensures desks { IfOk result (λ stations.
        map (λ station. station.desk) stations.items ≡ desks.items) }
{
    let mut stations = Vec::with_capacity(alloc, seats.len())?;
    for (seat, desk) in seats.into_iter().zip(desks) {
        stations.push(Station {
            seat,
            desk,
            end: End::NotStarted,
        })?;
    }
    Ok(stations)
}

/// The seats of the stations, and what the stations leave besides them.
pub(crate) fn risen<L: Count>(
    alloc: Global,
    stations: Vec<Station<L>>,
) -> Result<(Vec<Seat<L>>, Vec<StationRemains>), AllocError>
    ensures seats { IfOk result (λ both.
        both.0.items ≡ map (λ station. station.seat) stations.items) }
    ensures left { IfOk result (λ both. both.1.items ≡ map left_of stations.items) }
{
    let mut seats = Vec::with_capacity(alloc, stations.len())?;
    let mut left = Vec::with_capacity(alloc, stations.len())?;
    for station in stations {
        let Station { seat, desk, end } = station;
        seats.push(seat)?;
        left.push(StationRemains { desk, end })?;
    }
    Ok((seats, left))
}
