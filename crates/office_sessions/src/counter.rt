//! Counters, and the threads that serve them.
ghost use Rattle.std.specs.Prelude.{◌≡◌, [], IfOk};
ghost use Rattle.rtrb.specs.Ring.{producer_capacity};

use crate::identity::Identity;
use crate::look::OwnPostings;
use crate::reader::Reader;
use crate::recent::Recent;
use crate::replies::{Inbox, OfficeLife};
use crate::scheduler::Scheduler;
use crate::session::{CAPACITY, Session};
use crate::wakers::Wakers;
use crate::writer::Writer;
use rtrb::RingBuffer;
use station_desk::Feed;
use std::alloc::{AllocError, Global};
use std::io::{Read, Write};
use std::sync::{Arc, Wait};
use std::thread::{Threads, spawn};
use text_grammar::LineCutter;

/// What is written to a terminal where a line is awaited.
const PROMPT: &str = "office> ";

/// What kind of client stands at a counter.
#[derive(Clone, Copy, Debug, PartialEq, Eq)]
pub enum CounterKind {
    /// A program, by two pipes: nothing ends where it hangs up.
    Pipes,
    /// A terminal: it is prompted, and the office closes where its input ends.
    Terminal,
}

/// A client of the office, and the station that is its own.
#[derive(Drop)]
pub struct Counter<I: Read, O: Write> {
    /// Below the number of stations; no two counters have the same.
    pub station: u8,
    /// What it is told when it asks for its name.
    pub identity: Identity,
    /// What it says.
    pub input: I,
    /// What it is told.
    pub output: O,
    pub kind: CounterKind,
    /// Whether its requests are dropped until it says `hello`: what an earlier client left unread
    /// isn't run.
    pub awaits_hello: bool,
}

/// Why a counter isn't served.
#[derive(Clone, Copy, Debug, PartialEq, Eq)]
pub(crate) enum Unserved {
    /// There is no memory.
    Memory,
    /// The system refused a thread.
    Threads,
}

impl From<AllocError> for Unserved {
    fn from(_: AllocError) -> Unserved {
        Unserved::Memory
    }
}

/// Starts the threads of a counter, and begins its session at its station.
pub(crate) fn begin_session<
    L: OfficeLife + Send + Sync + 'static,
    R: Threads + Wait + Send + Clone + Drop + 'static,
    I: Read + Send + Drop + 'static,
    O: Write + Send + Drop + 'static,
>(
    rt: &R,
    alloc: Global,
    own: OwnPostings,
    counter: Counter<I, O>,
    feed: Feed,
    scheduler: &Arc<Scheduler<L>>,
) -> Result<Session<L>, Unserved>
    requires nothing_asked { feed.asked ≡ [] }
    requires nothing_collected { feed.collected ≡ [] }
    ensures feed { IfOk result (λ session. session.postings.feed ≡ feed) }
    ensures own { IfOk result (λ session. session.own ≡ own) }
{
    let Counter {
        identity,
        input,
        output,
        kind,
        awaits_hello,
        ..
    } = counter;
    let prompt = match kind {
        CounterKind::Pipes => "",
        CounterKind::Terminal => PROMPT,
    };
    let (said, messages) = RingBuffer::new(alloc, CAPACITY)?;
    let (responses, told) = RingBuffer::new(alloc, CAPACITY)?;
    let replies = connect(rt, alloc, own.station, scheduler)?;
    let wakers = new_wakers(alloc)?;
    let reader = Reader::new(input, LineCutter::new(alloc)?, said, awaits_hello);
    start_reader(rt, reader, &wakers, scheduler)?;
    let writer = Writer::new(alloc, output, prompt, identity, told)?;
    start_writer(rt, writer, &wakers, scheduler)?;
    let (recent, closes_at_end) = (Recent::new(alloc)?, kind == CounterKind::Terminal);
    Ok(Session::new(
        own,
        messages,
        responses,
        replies,
        feed,
        wakers,
        recent,
        closes_at_end,
    ))
}

// The ring out of which the replies for a station come. One thing is asked at a time.
fn connect<L: OfficeLife, R: Wait>(
    rt: &R,
    alloc: Global,
    station: u8,
    scheduler: &Scheduler<L>,
) -> Result<Inbox<L>, AllocError>
    ensures nothing { IfOk result (λ replies. replies ≡ []) }
{
    let (outbox, inbox) = Inbox::open(alloc, 1)?;
    scheduler.connect(rt, station, outbox);
    Ok(inbox)
}

// What wakes the threads of one counter.
fn new_wakers(alloc: Global) -> Result<Arc<Wakers>, AllocError> {
    Ok(Arc::new(alloc, Wakers::new())?)
}

/// A session at a station that has no counter. Its rings have no places: what is told to nobody
/// would count as unwritten, and the office would wait for that before it ends.
pub(crate) fn empty_session<L: OfficeLife>(
    alloc: Global,
    own: OwnPostings,
    feed: Feed,
) -> Result<Session<L>, AllocError>
    requires nothing_asked { feed.asked ≡ [] }
    requires nothing_collected { feed.collected ≡ [] }
    ensures feed { IfOk result (λ session. session.postings.feed ≡ feed) }
    ensures own { IfOk result (λ session. session.own ≡ own) }
    ensures nobody { IfOk result (λ session. producer_capacity session.responses ≡ 0) }
{
    let (_, messages) = RingBuffer::new(alloc, 0)?;
    let (responses, _) = RingBuffer::new(alloc, 0)?;
    let (_, replies) = Inbox::open(alloc, 0)?;
    let wakers = new_wakers(alloc)?;
    let recent = Recent::new(alloc)?;
    Ok(Session::new(
        own, messages, responses, replies, feed, wakers, recent, false,
    ))
}

// Starts the thread that reads; nobody waits for its end.
fn start_reader<
    L: OfficeLife + Send + Sync + 'static,
    R: Threads + Wait + Send + Clone + Drop + 'static,
    I: Read + Send + Drop + 'static,
>(
    rt: &R,
    reader: Reader<I>,
    wakers: &Arc<Wakers>,
    scheduler: &Arc<Scheduler<L>>,
) -> Result<(), Unserved> {
    let (own, wakers) = (rt.clone()?, Arc::try_clone(wakers)?);
    let scheduler = Arc::try_clone(scheduler)?;
    let mut reader = reader;
    match spawn(rt, move || reader.read_all(&own, &wakers, &scheduler)) {
        Ok(_) => Ok(()),
        Err(_) => Err(Unserved::Threads),
    }
}

// Starts the thread that writes; nobody waits for its end.
fn start_writer<
    L: OfficeLife + Send + Sync + 'static,
    R: Threads + Wait + Send + Clone + Drop + 'static,
    O: Write + Send + Drop + 'static,
>(
    rt: &R,
    writer: Writer<O>,
    wakers: &Arc<Wakers>,
    scheduler: &Arc<Scheduler<L>>,
) -> Result<(), Unserved> {
    let (own, wakers) = (rt.clone()?, Arc::try_clone(wakers)?);
    let scheduler = Arc::try_clone(scheduler)?;
    let mut writer = writer;
    match spawn(rt, move || writer.write_all(&own, &wakers, &scheduler)) {
        Ok(_) => Ok(()),
        Err(_) => Err(Unserved::Threads),
    }
}
