//! Who wakes the stations and the dispatcher of a live office.
//!
//! Nobody asks for a turn while no request waits. While the line may still be healing each station
//! may ask after each turn; from then on one station alone is privileged, and which one follows
//! from the last move, so that it alone is woken.
ghost use Rattle.office_sessions.specs.Right.{IsRight};

use crate::recess::{ArchiveState, Wish, WishOutcome};
use crate::replies::{OfficeLife, Outbox, Reply};
use four_state::Rule;
use station_desk::{Errand, Gate, Question, Report};
use std::alloc::{AllocError, Global};
use std::sync::atomic::{AtomicBool, AtomicU64, Ordering};
use std::sync::{Mutex, Wait};
use std::thread::Parker;
use std::time::Duration;
use turn_clerk::Turn;

/// How often a station looks whether all others have begun, before all are sent home and begin
/// anew. Behind each span that ended so it looks four times as often, up to an hour.
const PATIENCE: u64 = 1_000;

const MOST_PATIENCE: u64 = 720_000;

/// How many milliseconds it waits between two looks.
const PAUSE: u64 = 5;

/// How many spans in a row may end so, before one in which all began: then the system is taken to
/// refuse a thread.
const TRIES: u64 = 2;

/// What is asked at a station, and the ring into which the replies go.
#[derive(Drop)]
struct Mailbox<L: OfficeLife> {
    question: Option<Question>,
    // What is wanted there of the next recess.
    wish: Option<Wish>,
    // None if the station has no counter.
    replies: Option<Outbox<L>>,
}

impl<L: OfficeLife> Mailbox<L> {
    // Hands on what came. One thing is asked at a time, so that there is a place for it.
    fn reply(&mut self, reply: Reply)
        requires { IsRight L.reports reply }
    {
        if let Some(replies) = &mut self.replies {
            let _ = replies.push(reply);
        }
    }
}

/// What wakes one station.
#[derive(Drop)]
struct Waker<L: OfficeLife> {
    parker: Parker,
    // Whether it may have become privileged since it last asked for its turn.
    may_ask: AtomicBool,
    has_begun: AtomicBool,
    mailbox: Mutex<Mailbox<L>>,
}

impl<L: OfficeLife> Waker<L> {
    fn new() -> Waker<L> {
        Waker {
            parker: Parker::new(),
            may_ask: AtomicBool::new(true),
            has_begun: AtomicBool::new(false),
            mailbox: Mutex::new(Mailbox {
                question: None,
                wish: None,
                replies: None,
            }),
        }
    }

    fn let_ask(&self) {
        self.may_ask.store(true, Ordering::SeqCst);
        self.parker.unpark();
    }

    // What the station is to ask the office, once.
    fn take_question<R: Wait>(&self, rt: &R) -> Option<Question> {
        self.mailbox.lock(rt).question.take()
    }
}

/// What the threads of a live office share.
#[derive(Drop)]
pub(crate) struct Scheduler<L: OfficeLife> {
    wakers: Vec<Waker<L>>,
    // Requests that were submitted, and that no turn has taken.
    waiting: AtomicU64,
    // After so many turns of the office's life one station alone is privileged.
    healed_after: u64,
    // The turns of the spans before this one, and of this one.
    earlier: AtomicU64,
    taken: AtomicU64,
    // How many stations have begun, and have ended, in this span.
    begun: AtomicU64,
    ended: AtomicU64,
    // No more is asked for.
    closing: AtomicBool,
    // A station has ended.
    stopping: AtomicBool,
    // A recess was called, for which the stations are sent home.
    recess: AtomicBool,
    // How many spans in a row ended since a station waited for the others to begin, and whether all
    // ever began.
    late: AtomicU64,
    has_worked: AtomicBool,
    // The stations gave up waiting for each other.
    abandoned: AtomicBool,
    // How far the archive is, as it was kept last.
    kept: Mutex<ArchiveState>,
    // The archive can't be kept: nobody takes a turn any more.
    cut_off: AtomicBool,
    // The office's life is over.
    over: AtomicBool,
    dispatcher: Parker,
}

impl<L: OfficeLife> Scheduler<L> {
    /// For a line of so many stations, and an archive that is so far.
    pub(crate) fn new(
        alloc: Global,
        stations: u8,
        kept: ArchiveState,
    ) -> Result<Scheduler<L>, AllocError> {
        let mut wakers = Vec::with_capacity(alloc, stations as usize)?;
        for _ in 0..stations {
            wakers.push(Waker::new())?;
        }
        let top = (stations as u64).saturating_sub(1);
        Ok(Scheduler {
            wakers,
            waiting: AtomicU64::new(0),
            // n² − n + 1 moves, with n for the number of the top station
            healed_after: top * top.saturating_sub(1) + 1,
            earlier: AtomicU64::new(0),
            taken: AtomicU64::new(0),
            begun: AtomicU64::new(0),
            ended: AtomicU64::new(0),
            closing: AtomicBool::new(false),
            stopping: AtomicBool::new(false),
            recess: AtomicBool::new(false),
            late: AtomicU64::new(0),
            has_worked: AtomicBool::new(false),
            abandoned: AtomicBool::new(false),
            kept: Mutex::new(kept),
            cut_off: AtomicBool::new(false),
            over: AtomicBool::new(false),
            dispatcher: Parker::new(),
        })
    }

    /// A request is submitted: stations that may be privileged ask for their turns. One may have
    /// taken it by now, so that the count was below zero, and wrapped, for a moment.
    pub(crate) fn note_submitted(&self) {
        if self.waiting.fetch_add(1, Ordering::SeqCst) == 0 {
            self.wake_those_who_may_ask();
        }
    }

    /// From now on the replies for a station go into this ring.
    pub(crate) fn connect<R: Wait>(&self, rt: &R, station: u8, replies: Outbox<L>) {
        if let Some(waker) = self.wakers.get(station as usize) {
            waker.mailbox.lock(rt).replies = Some(replies);
        }
    }

    /// Puts a question to a station; its report comes later.
    pub(crate) fn put_question<R: Wait>(&self, rt: &R, station: u8, question: Question) {
        if let Some(waker) = self.wakers.get(station as usize) {
            waker.mailbox.lock(rt).question = Some(question);
            waker.parker.unpark();
        }
    }

    /// Calls a recess for what is wanted at a station.
    pub(crate) fn call_recess<R: Wait>(&self, rt: &R, station: u8, wish: Wish) {
        if let Some(waker) = self.wakers.get(station as usize) {
            waker.mailbox.lock(rt).wish = Some(wish);
            self.recess.store(true, Ordering::SeqCst);
            self.wake_all();
        }
    }

    /// Whether one is called, behind which the office goes on.
    pub(crate) fn is_recess_called(&self) -> bool {
        self.recess.load(Ordering::SeqCst) && !self.is_given_up()
    }

    /// From here on a wish is granted that is there, and each later one calls the next recess.
    pub(crate) fn begin_recess(&self) {
        self.recess.store(false, Ordering::SeqCst);
    }

    /// What is wanted at a station, once.
    pub(crate) fn take_wish<R: Wait>(&self, rt: &R, station: u8) -> Option<Wish> {
        let waker = self.wakers.get(station as usize)?;
        waker.mailbox.lock(rt).wish.take()
    }

    /// Tells a station what came of its wish.
    pub(crate) fn tell<R: Wait>(&self, rt: &R, station: u8, came: WishOutcome) {
        if let Some(waker) = self.wakers.get(station as usize) {
            waker.mailbox.lock(rt).reply(Reply::Outcome(came));
        }
    }

    /// How many stations there are.
    pub(crate) fn stations(&self) -> u8 {
        u8::try_from(self.wakers.len()).unwrap_or(u8::MAX)
    }

    /// The archive is so far now.
    pub(crate) fn note_kept<R: Wait>(&self, rt: &R, kept: ArchiveState) {
        *self.kept.lock(rt) = kept;
    }

    /// How far the archive is, as it was kept last.
    pub(crate) fn kept<R: Wait>(&self, rt: &R) -> ArchiveState {
        *self.kept.lock(rt)
    }

    /// Nobody takes a turn any more.
    pub(crate) fn cut_off(&self) {
        self.cut_off.store(true, Ordering::SeqCst);
    }

    /// The office is to close once all that was submitted is answered.
    pub(crate) fn close(&self) {
        self.closing.store(true, Ordering::SeqCst);
        self.wake_all();
    }

    /// Whether it is.
    pub(crate) fn is_closing(&self) -> bool {
        self.closing.load(Ordering::SeqCst)
    }

    /// No station takes a turn any more.
    pub(crate) fn note_over(&self) {
        self.over.store(true, Ordering::SeqCst);
        self.dispatcher.unpark();
    }

    /// Whether that is so.
    pub(crate) fn is_over(&self) -> bool {
        self.over.load(Ordering::SeqCst)
    }

    /// Waits until the dispatcher is woken; it may have been since it last waited.
    pub(crate) fn wait_for_work<R: Wait>(&self, rt: &R) {
        self.dispatcher.park(rt);
    }

    /// Wakes the dispatcher.
    pub(crate) fn wake_dispatcher(&self) {
        self.dispatcher.unpark();
    }

    /// How many turns were taken.
    pub(crate) fn turns(&self) -> u64 {
        let earlier = self.earlier.load(Ordering::SeqCst);
        earlier.saturating_add(self.taken.load(Ordering::SeqCst))
    }

    /// Whether the stations gave up waiting for each other to begin.
    pub(crate) fn is_abandoned(&self) -> bool {
        self.abandoned.load(Ordering::SeqCst)
    }

    // Whether nobody waits for turns any more.
    fn is_given_up(&self) -> bool {
        self.is_abandoned() || self.cut_off.load(Ordering::SeqCst)
    }

    fn wake_those_who_may_ask(&self) {
        for waker in &self.wakers {
            if waker.may_ask.load(Ordering::SeqCst) {
                waker.parker.unpark();
            }
        }
    }

    fn wake_all(&self) {
        for waker in &self.wakers {
            waker.parker.unpark();
        }
    }

    fn let_all_ask(&self) {
        for waker in &self.wakers {
            waker.let_ask();
        }
    }

    // Waits, at a station's first errand, until each has begun, or all are sent home. Where that
    // takes too long, all are: a thread is late, or the system refuses it.
    fn await_others<R: Wait>(&self, rt: &R, waker: &Waker<L>) {
        if waker.has_begun.swap(true, Ordering::SeqCst) {
            return;
        }
        self.begun.fetch_add(1, Ordering::SeqCst);
        self.wake_all();
        for _ in 0..self.patience() {
            if self.recess.load(Ordering::SeqCst) || self.is_given_up() {
                return;
            }
            if self.begun.load(Ordering::SeqCst) >= self.wakers.len() as u64 {
                self.late.store(0, Ordering::SeqCst);
                self.has_worked.store(true, Ordering::SeqCst);
                return;
            }
            waker.parker.park_timeout(rt, Duration::from_millis(PAUSE));
        }
        self.begin_again();
    }

    // How often it is looked in this span whether all have begun.
    fn patience(&self) -> u64 {
        let mut patience = PATIENCE;
        for _ in 0..self.late.load(Ordering::SeqCst).min(5) {
            patience = patience.saturating_mul(4).min(MOST_PATIENCE);
        }
        patience
    }

    // Not all have begun: they are sent home, and the next span is another try. An office in which
    // all began once tries as often as it takes. One that never came so far is abandoned.
    fn begin_again(&self) {
        if self.recess.swap(true, Ordering::SeqCst) {
            return;
        }
        let late = self.late.fetch_add(1, Ordering::SeqCst).saturating_add(1);
        if late >= TRIES && !self.has_worked.load(Ordering::SeqCst) {
            self.abandoned.store(true, Ordering::SeqCst);
        }
        self.wake_all();
    }

    // Whether a station is to end here: nothing waits in an office that closes, a recess is called,
    // or nobody waits any more.
    fn goes_home(&self) -> bool {
        let is_done = self.is_closing() && self.waiting.load(Ordering::SeqCst) == 0;
        is_done || self.recess.load(Ordering::SeqCst) || self.is_given_up()
    }

    // What a station is to do now, if there is anything.
    fn due<R: Wait>(&self, rt: &R, waker: &Waker<L>) -> Option<Errand> {
        if self.goes_home() {
            return Some(Errand::Close);
        }
        if self.stopping.load(Ordering::SeqCst) {
            return Some(Errand::Turn);
        }
        if let Some(question) = waker.take_question(rt) {
            return Some(Errand::Ask(question));
        }
        if self.waiting.load(Ordering::SeqCst) == 0
            || !waker.may_ask.swap(false, Ordering::SeqCst)
        {
            return None;
        }
        Some(Errand::Turn)
    }

    // Lets the station ask that a turn has made privileged.
    fn pass_on(&self, turn: &Turn) {
        let place = self
            .earlier
            .load(Ordering::SeqCst)
            .saturating_add(turn.index);
        if place < self.healed_after {
            self.let_all_ask();
            return;
        }
        let next = match turn.rule {
            Rule::Bottom | Rule::Raise => turn.station.saturating_add(1),
            Rule::Top | Rule::Lower => turn.station.saturating_sub(1),
        };
        if let Some(waker) = self.wakers.get(next as usize) {
            waker.let_ask();
        }
    }

    // All stations have ended: the next span begins as the first.
    fn begin_anew(&self) {
        let taken = self.taken.swap(0, Ordering::SeqCst);
        self.earlier.fetch_add(taken, Ordering::SeqCst);
        self.begun.store(0, Ordering::SeqCst);
        self.ended.store(0, Ordering::SeqCst);
        self.stopping.store(false, Ordering::SeqCst);
        for waker in &self.wakers {
            waker.has_begun.store(false, Ordering::SeqCst);
            waker.may_ask.store(true, Ordering::SeqCst);
        }
    }
}

impl<L: OfficeLife> Gate for Scheduler<L> {
    ghost hears = { λ _. L.reports };

    fn errand<R: Wait>(&self, rt: &R, station: u8) -> Errand {
        let Some(waker) = self.wakers.get(station as usize) else {
            return Errand::Close;
        };
        self.await_others(rt, waker);
        for _ in rt.forever() {
            if let Some(errand) = self.due(rt, waker) {
                return errand;
            }
            waker.parker.park(rt);
        }
        unreachable!()
    }

    fn reported<R: Wait>(&self, rt: &R, station: u8, question: Question, report: Report) {
        if let Some(waker) = self.wakers.get(station as usize) {
            let reply = Reply::Report { question, report };
            waker.mailbox.lock(rt).reply(reply);
        }
        self.wake_dispatcher();
    }

    fn gathered(&self, _station: u8) {}

    fn took(&self, turn: &Turn) {
        self.taken.fetch_add(1, Ordering::SeqCst);
        let entries = turn.entries.len() as u64;
        let waited = self.waiting.fetch_sub(entries, Ordering::SeqCst);
        self.pass_on(turn);
        if entries > 0 {
            self.wake_dispatcher();
        }
        if waited == entries && self.is_closing() {
            self.wake_all();
        }
    }

    fn answered(&self, _station: u8) {}

    fn ended(&self, _station: u8) {
        self.stopping.store(true, Ordering::SeqCst);
        let before = self.ended.fetch_add(1, Ordering::SeqCst);
        if before.saturating_add(1) == self.wakers.len() as u64 {
            self.begin_anew();
        } else {
            self.wake_all();
        }
    }
}
