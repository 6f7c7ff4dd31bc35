//! An office that is kept open for its counters.
ghost use Rattle.std.specs.Prelude.{◌≡◌, ◌↔◌, map, IfOk, IfErr};
ghost use Rattle.std.specs.List.{AllZip};
ghost use Rattle.office_day.specs.Day.{AreReconciled};
ghost use Rattle.office_day.specs.Spans.{rest_of, span_of};
ghost use Rattle.station_desk.specs.declared.errand.Question.{Question};
ghost use Rattle.station_desk.specs.declared.errand.Report.{Report};
ghost use Rattle.office_sessions.specs.Right.{WasReported};
ghost use Rattle.office_sessions.specs.Session.{EndsIn, feed_of};
ghost use Rattle.office_sessions.specs.Kept.{WasKeptFor, HandsBack, stands_with};

use crate::conversation::Conversation;
use crate::counter::{Counter, Unserved};
use crate::opening::{AttendedCounters, begin};
use crate::recess::{Keeper, WishGranter};
use crate::replies::OfficeLife;
use crate::scheduler::Scheduler;
use crate::session::Session;
use crate::status::Clients;
use crate::wakers::Wakers;
use line_lock::OfficeRefusal;
use office_day::{Audit, Life, OfficeParts, StationDay, StationRemains, all_reconciled, run_spans};
use sector_device::Device;
use station_desk::Feed;
use std::alloc::{AllocError, Global};
use std::io::{Read, Write};
use std::marker::Brand;
use std::sync::{Arc, Wait};
use std::thread::{Threads, sleep};
use std::time::{Clock, Duration};
use thiserror::Error;
use turn_clerk::Clerk;

/// How often it is looked whether the counters were told all, before the office is left; and how
/// many milliseconds lie between two looks.
const LOOKS: u64 = 400;

const PAUSE: u64 = 5;

/// A live office that is closed.
#[derive(Drop)]
pub struct ClosedOffice<D: Device> {
    /// The clerk of its last span, with that span's history.
    pub clerk: Clerk<D>,
    /// The audit of the last span's opening line and all its moves.
    pub audit: Audit,
    /// What each station's client wasn't told yet, and how the station ended, station 0 first.
    pub stations: Vec<StationDay>,
    /// What each station's client said and was told, and what came too late, station 0 first.
    pub conversations: Vec<Conversation>,
    /// How many turns were taken in all.
    pub turns: u64,
    /// Whether stations ended since one of them never began, as where the system refuses a thread.
    pub is_abandoned: bool,
}

/// Why an office wasn't kept open, or isn't told of.
#[derive(Clone, Copy, Debug, PartialEq, Eq, Error)]
pub enum LiveRefusal {
    /// There is no memory; nothing was done.
    #[error("out of memory")]
    Memory,
    /// The system refused a thread; nothing was done.
    #[error("the system refused a thread")]
    Threads,
    /// The office wasn't opened, or wasn't closed.
    #[error("{0}")]
    Office(OfficeRefusal<AllocError>),
    /// There is no memory for what became of the last requests. All that was answered stands.
    #[error("out of memory")]
    Unsettled,
}

impl From<Unserved> for LiveRefusal {
    ghost use Rattle.office_sessions.specs.Kept.{live_refusal};

    ghost from_gives = { λ unserved refusal. refusal ≡ live_refusal unserved };

    fn from(unserved: Unserved) -> LiveRefusal {
        match unserved {
            Unserved::Memory => LiveRefusal::Memory,
            Unserved::Threads => LiveRefusal::Threads,
        }
    }
}

/// Keeps an office open over the clerk, with its line, for these counters, each at its station:
/// each may come and go, say its requests, and is told the answers. Stations without a counter take
/// turns that are empty. From the batch of the number `first` on only offices posted: what stands
/// before it is no counter's. After `moves` turns the office is closed, the clerk begins anew, and
/// it is opened again, which no counter notices. It ends once a counter asks for that, and all that
/// was submitted is answered; where the input of a terminal ends; and where a station is refused
/// its turns, as by a failed device. Then it is closed. Whenever it is closed for a while, the
/// keeper adds to the archive and makes the copies that were asked for; counters can have it closed
/// for that. If the archive can't be kept, the office ends. The keeper comes back with an office
/// that is closed: its archive has all batches of the spans before the last one. The call waits for
/// all of that; the counters' threads are left behind.
///
/// # Errors
/// The device comes back with a [`LiveRefusal`].
pub fn keep_open<
    D: Device + Send,
    R: Threads + Wait + Clock + Sync + Send + Clone + Drop + 'static,
    I: Read + Send + Drop + 'static,
    O: Write + Send + Drop + 'static,
    C: Clients + Send + Drop + 'static,
    K: Keeper + Drop,
>(
    rt: &R,
    alloc: Global,
    clerk: Clerk<D>,
    counters: Vec<Counter<I, O>>,
    clients: C,
    first: u64,
    moves: u64,
    keeper: K,
) -> Result<(ClosedOffice<D>, K), (D, LiveRefusal)>
    ensures kept { IfOk result (λ both. WasKeptFor D.state moves first (rest_of clerk)
        (span_of both.0.clerk both.0.audit) both.0.stations.items both.0.conversations.items
        (K.archive keeper) (K.archive both.1)) }
    ensures left { IfErr result (λ e. HandsBack D.state moves (rest_of clerk) e.0 e.1) }
{
    // the name is this call's own: which reports are right of this office
    keep_named::<D, Brand, R, I, O, C, K>(rt, alloc, clerk, counters, clients, first, moves, keeper)
}

// The same of an office whose life has a name, which says which reports are right.
fn keep_named<
    D: Device + Send,
    L: OfficeLife + Send + Sync + 'static,
    R: Threads + Wait + Clock + Sync + Send + Clone + Drop + 'static,
    I: Read + Send + Drop + 'static,
    O: Write + Send + Drop + 'static,
    C: Clients + Send + Drop + 'static,
    K: Keeper + Drop,
>(
    rt: &R,
    alloc: Global,
    clerk: Clerk<D>,
    counters: Vec<Counter<I, O>>,
    clients: C,
    first: u64,
    moves: u64,
    keeper: K,
) -> Result<(ClosedOffice<D>, K), (D, LiveRefusal)>
    requires named { (question : Question) → (report : Report) → L.reports question report
        ↔ WasReported D.state moves (rest_of clerk) question report }
    ensures kept { IfOk result (λ both. WasKeptFor D.state moves first (rest_of clerk)
        (span_of both.0.clerk both.0.audit) both.0.stations.items both.0.conversations.items
        (K.archive keeper) (K.archive both.1)) }
    ensures left { IfErr result (λ e. HandsBack D.state moves (rest_of clerk) e.0 e.1) }
{
    let (stations, kept) = (clerk.line().stations(), keeper.kept());
    let begun = match begin::<L, R, I, O, C>(rt, alloc, stations, kept, first, counters, clients) {
        Ok(begun) => begun,
        Err(unserved) => return Err((clerk.into_device(), LiveRefusal::from(unserved))),
    };
    let AttendedCounters {
        scheduler,
        dispatcher,
        desks,
        wakers,
    } = begun;
    let mut recess = WishGranter {
        rt,
        scheduler: &*scheduler,
        keeper,
    };
    let office = OfficeParts { clerk, desks };
    let life = run_spans(rt, alloc, office, &*scheduler, &mut recess, moves);
    scheduler.note_over();
    let ended = all_ended(rt, alloc, dispatcher.join(rt));
    await_writers(rt, wakers.as_slice());
    let life = match life {
        Ok(life) => life,
        Err((device, refusal)) => return Err((device, LiveRefusal::Office(refusal))),
    };
    let Ok((feeds, conversations)) = ended else {
        return Err((life.clerk.into_device(), LiveRefusal::Unsettled));
    };
    match settled(alloc, life, feeds, conversations, &scheduler) {
        Ok(closed) => Ok((closed, recess.keeper)),
        Err((device, refusal)) => Err((device, refusal)),
    }
}

// Waits until the counters were told all, but not for ever: one that reads nothing holds up nobody.
fn await_writers<C: Clock>(clock: &C, wakers: &[Arc<Wakers>]) {
    for _ in 0..LOOKS {
        if wakers.iter().all(|one| one.unwritten() == 0) {
            return;
        }
        sleep(clock, Duration::from_millis(PAUSE));
    }
}

// The office's end, with what became of what its clients weren't told yet.
fn settled<D: Device, L: OfficeLife>(
    alloc: Global,
    life: Life<D>,
    feeds: Vec<Feed>,
    conversations: Vec<Conversation>,
    scheduler: &Scheduler<L>,
) -> Result<ClosedOffice<D>, (D, LiveRefusal)>
    requires together { AllZip stands_with feeds.items life.left.items }
    ensures clerk { IfOk result (λ closed. closed.clerk ≡ life.clerk) }
    ensures audit { IfOk result (λ closed. closed.audit ≡ life.audit) }
    ensures stations { IfOk result (λ closed.
        AreReconciled feeds.items life.left.items closed.stations.items) }
    ensures conversations { IfOk result (λ closed.
        closed.conversations.items ≡ conversations.items) }
    ensures back { IfErr result (λ e. e.0 ≡ life.clerk.journal.device) }
    ensures unsettled { IfErr result (λ e. e.1 ≡ LiveRefusal.Unsettled) }
{
    let Life { clerk, audit, left } = life;
    match all_reconciled(alloc, feeds, left) {
        Ok(stations) => Ok(ClosedOffice {
            clerk,
            audit,
            stations,
            conversations,
            turns: scheduler.turns(),
            is_abandoned: scheduler.is_abandoned(),
        }),
        Err(AllocError) => Err((clerk.into_device(), LiveRefusal::Unsettled)),
    }
}

// The feeds of the sessions, and the conversations, which are over.
fn all_ended<L: OfficeLife, C: Clock>(
    clock: &C,
    alloc: Global,
    sessions: Vec<Session<L>>,
) -> Result<(Vec<Feed>, Vec<Conversation>), AllocError>
    ensures feeds { IfOk result (λ both. both.0.items ≡ map feed_of sessions.items) }
    ensures each { IfOk result (λ both. AllZip (EndsIn L.reports) sessions.items both.1.items) }
{
    let mut feeds = Vec::with_capacity(alloc, sessions.len())?;
    let mut conversations = Vec::with_capacity(alloc, sessions.len())?;
    for session in sessions {
        let (feed, conversation) = session.end(clock, alloc)?;
        feeds.push(feed)?;
        conversations.push(conversation)?;
    }
    Ok((feeds, conversations))
}
