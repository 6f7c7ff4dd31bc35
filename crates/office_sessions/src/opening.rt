//! How an office opens for its counters: their sessions, and the thread that attends to them.
ghost use Rattle.std.specs.Prelude.{◌≡◌, [], ◌∷◌, ◌++◌, length, map, All, IfOk, IfSome, OnOk};
ghost use Rattle.std.specs.List.{AllZip};
ghost use Rattle.station_desk.specs.Rings.{AreTogether};
ghost use Rattle.office_day.specs.HandedIn.{IsFresh};
ghost use Rattle.office_sessions.specs.Session.{feed_of, own_of, own_of_all};

use crate::counter::{Counter, Unserved, begin_session, empty_session};
use crate::dispatcher::{SameSessions, dispatch};
use crate::look::OwnPostings;
use crate::recess::ArchiveState;
use crate::replies::OfficeLife;
use crate::scheduler::Scheduler;
use crate::session::{CAPACITY, Session};
use crate::status::Clients;
use crate::wakers::Wakers;
use station_desk::{Desk, Feed, desk};
use std::alloc::{AllocError, Global};
use std::io::{Read, Write};
use std::snapshot::Snapshot;
use std::sync::{Arc, Wait};
use std::thread::{PromisedHandle, Threads, spawn_with};

/// An office's counters, attended to, before its stations take turns.
#[derive(Drop)]
pub(crate) struct AttendedCounters<L: OfficeLife> {
    /// What the stations are woken by.
    pub scheduler: Arc<Scheduler<L>>,
    /// The thread that attends to the counters.
    pub dispatcher: PromisedHandle<Vec<Session<L>>, SameSessions<L>>,
    /// The desks of the stations.
    pub desks: Vec<Desk>,
    /// What the counters' threads are woken by.
    pub wakers: Vec<Arc<Wakers>>,
}

// The sessions of stations, and their desks.
#[derive(Drop)]
struct Attendance<L: OfficeLife> {
    sessions: Vec<Session<L>>,
    desks: Vec<Desk>,
    wakers: Vec<Arc<Wakers>>,
}

impl<L: OfficeLife> Attendance<L> {
    // No station, and places for so many.
    fn new(alloc: Global, stations: usize) -> Result<Attendance<L>, AllocError>
        ensures sessions { IfOk result (λ all. all.sessions.items ≡ []) }
        ensures desks { IfOk result (λ all. all.desks.items ≡ []) }
    {
        Ok(Attendance {
            sessions: Vec::with_capacity(alloc, stations)?,
            desks: Vec::with_capacity(alloc, stations)?,
            wakers: Vec::with_capacity(alloc, stations)?,
        })
    }

    // The next station.
    fn add(&mut self, session: Session<L>, desk: Desk) -> Result<(), AllocError>
        ensures sessions { OnOk result (self.new.sessions.items ≡ self.old.sessions.items ++ session ∷ []) }
        ensures desks { OnOk result (self.new.desks.items ≡ self.old.desks.items ++ desk ∷ []) }
    {
        self.wakers.push(session.wakers()?)?;
        self.sessions.push(session)?;
        self.desks.push(desk)?;
        Ok(())
    }
}

/// Begins to attend to the counters, at as many stations, of an office whose archive is so far.
/// From the batch of the number `first` on only offices posted.
pub(crate) fn begin<
    L: OfficeLife + Send + Sync + 'static,
    R: Threads + Wait + Send + Clone + Drop + 'static,
    I: Read + Send + Drop + 'static,
    O: Write + Send + Drop + 'static,
    C: Clients + Send + Drop + 'static,
>(
    rt: &R,
    alloc: Global,
    stations: u8,
    kept: ArchiveState,
    first: u64,
    counters: Vec<Counter<I, O>>,
    clients: C,
) -> Result<AttendedCounters<L>, Unserved>
    ensures together { IfOk result (λ begun. AllZip AreTogether
        (map feed_of begun.dispatcher.promise.0.value.items)
        begun.desks.items) }
    ensures fresh { IfOk result (λ begun. All IsFresh begun.desks.items) }
    ensures as_many { IfOk result (λ begun. length begun.desks.items ≡ stations) }
    ensures own { IfOk result (λ begun.
        map own_of begun.dispatcher.promise.0.value.items ≡ own_of_all first stations) }
{
    let scheduler = new_scheduler(alloc, stations, kept)?;
    let Attendance {
        sessions,
        desks,
        wakers,
    } = seat_all(rt, alloc, stations, first, counters, &scheduler)?;
    let promise = SameSessions(Snapshot::of(&sessions));
    let (own, theirs) = (rt.clone()?, Arc::try_clone(&scheduler)?);
    match spawn_with(
        rt,
        promise,
        move || dispatch(&own, &theirs, sessions, clients),
    ) {
        Ok(dispatcher) => Ok(AttendedCounters {
            scheduler,
            dispatcher,
            desks,
            wakers,
        }),
        Err(_) => Err(Unserved::Threads),
    }
}

fn new_scheduler<L: OfficeLife>(
    alloc: Global,
    stations: u8,
    kept: ArchiveState,
) -> Result<Arc<Scheduler<L>>, AllocError> {
    Ok(Arc::new(alloc, Scheduler::new(alloc, stations, kept)?)?)
}

// A session for each station, with its counter where it has one, and its desk.
fn seat_all<
    L: OfficeLife + Send + Sync + 'static,
    R: Threads + Wait + Send + Clone + Drop + 'static,
    I: Read + Send + Drop + 'static,
    O: Write + Send + Drop + 'static,
>(
    rt: &R,
    alloc: Global,
    stations: u8,
    first: u64,
    counters: Vec<Counter<I, O>>,
    scheduler: &Arc<Scheduler<L>>,
) -> Result<Attendance<L>, Unserved>
    ensures together { IfOk result (λ all. AllZip AreTogether
        (map feed_of all.sessions.items) all.desks.items) }
    ensures fresh { IfOk result (λ all. All IsFresh all.desks.items) }
    ensures as_many { IfOk result (λ all. length all.desks.items ≡ stations) }
    ensures own { IfOk result (λ all.
        map own_of all.sessions.items ≡ own_of_all first stations) }
{
    let mut all = Attendance::new(alloc, stations as usize)?;
    let mut waiting = counters;
    for station in 0..stations {
        let (feed, desk) = desk(alloc, CAPACITY)?;
        let counter = counter_of(station, &mut waiting);
        let own = OwnPostings { station, first };
        let session = session_at(rt, alloc, own, counter, feed, scheduler)?;
        all.add(session, desk)?;
    }
    Ok(all)
}

// Takes out the counter of a station, if it has one.
fn counter_of<I: Read + Drop, O: Write + Drop>(
    station: u8,
    waiting: &mut Vec<Counter<I, O>>,
) -> Option<Counter<I, O>>
    ensures { IfSome result (λ counter. counter.station ≡ station) }
{
    let place = waiting
        .iter()
        .position(|counter| counter.station == station)?;
    let counter = waiting.swap_remove(place);
    (counter.station == station).then_some(counter)
}

// The session of a station, with its counter where it has one.
fn session_at<
    L: OfficeLife + Send + Sync + 'static,
    R: Threads + Wait + Send + Clone + Drop + 'static,
    I: Read + Send + Drop + 'static,
    O: Write + Send + Drop + 'static,
>(
    rt: &R,
    alloc: Global,
    own: OwnPostings,
    counter: Option<Counter<I, O>>,
    feed: Feed,
    scheduler: &Arc<Scheduler<L>>,
) -> Result<Session<L>, Unserved>
    requires nothing_asked { feed.asked ≡ [] }
    requires nothing_collected { feed.collected ≡ [] }
    requires station { IfSome counter (λ its. its.station ≡ own.station) }
    ensures feed { IfOk result (λ session. session.postings.feed ≡ feed) }
    ensures own { IfOk result (λ session. session.own ≡ own) }
{
    match counter {
        Some(counter) => begin_session(rt, alloc, own, counter, feed, scheduler),
        None => match empty_session(alloc, own, feed) {
            Ok(session) => Ok(session),
            Err(AllocError) => Err(Unserved::Memory),
        },
    }
}
