//! What the dispatcher does for one counter.
ghost use Rattle.std.specs.Prelude.{◌≡◌, ◌≢◌, ◌≤◌, ◌^◌, ◌-◌, [], map, IfSome};
ghost use Rattle.rtrb.specs.Ring.{known_free, sent, received};
ghost use Rattle.station_desk.specs.Messages.{entries_of};
ghost use Rattle.office_sessions.specs.Conversation.{response_of, answers_among};
ghost use Rattle.office_sessions.specs.Exchange.{IsAnswering};
ghost use Rattle.office_sessions.specs.Looked.{earlier_by};
ghost use Rattle.office_sessions.specs.Replies.{AreToldBy, HasSearched, HasLooked, IsLearned};
ghost use Rattle.office_sessions.specs.Replies.{HasSeenLast, nothing_since};

use crate::look::{Look, LookAnswer, OwnPostings};
use crate::messages::Message;
use crate::postings::Postings;
use crate::recent::Recent;
use crate::replies::{Inbox, OfficeLife};
use crate::responses::Response;
use crate::search::Search;
use crate::wakers::Wakers;
use rtrb::{Consumer, Producer};
use station_desk::Feed;
use std::alloc::AllocError;
use std::sync::Arc;

/// How many messages and responses lie at most between the dispatcher and one counter, each way.
pub(crate) const CAPACITY: usize = 256;

mod asking;
mod ending;
mod posting;
mod taking;

/// What is known of the references that were posted at a counter before it was opened.
#[derive(Clone, Copy, Debug, PartialEq, Eq)]
enum Earlier {
    /// Nobody looked yet.
    Unlooked,
    /// None is in sight, from the batch of this number on.
    OutOfSight(u64),
    /// None is greater than those that its [`Postings`] know of.
    Known,
}

impl Earlier {
    // As a look at all that was posted says.
    fn by(seen: &LookAnswer) -> Earlier
        ensures by { result ≡ earlier_by seen.now }
        ensures known { result ≢ Earlier.Unlooked }
    {
        match (seen.posting, seen.since) {
            (None, 1..) => Earlier::OutOfSight(seen.since),
            (Some(_), _) | (None, 0) => Earlier::Known,
        }
    }
}

/// A counter as the dispatcher sees it. Its messages are answered in order: an entry by its answer,
/// once that is collected, or by a judgement of its reference; a search by a response for
/// each record that it finds, and then by how many they are; all else by one response. What is told
/// of the ledger is right by what was replied to the session. For each request that is submitted a
/// place is kept for the response to it, so that a counter that reads nothing holds up nobody but
/// itself.
#[derive(Drop)]
pub(crate) struct Session<L: OfficeLife> {
    own: OwnPostings,
    messages: Consumer<Message>,
    responses: Producer<Response>,
    // What came of what was asked of the station, and of recesses.
    replies: Inbox<L>,
    pub(crate) postings: Postings,
    earlier: Earlier,
    wakers: Arc<Wakers>,
    // Whether the office closes where nothing comes any more.
    closes_at_end: bool,
    // What is handled next, once all before it is answered.
    next: Option<Message>,
    // Whether the station was asked for it, or a recess was called.
    is_asked: bool,
    search: Search,
    // The look that is under way, at the own postings up to a reference.
    look: Look,
    limit: u64,
    // Set while a look that saw nothing in sight goes on in the archive: the number of the first
    // record in sight.
    out_of_sight: Option<u64>,
    recent: Recent,
    // Whether the counter was told that the office closes.
    is_told_closing: bool,
    ghost kept_places: { postings.unanswered ≤ known_free responses },
    ghost answered: { ∥ IsAnswering (received messages) (sent responses)
        (entries_of postings.feed.asked) postings.unanswered next search ∥₁ },
    ghost told: { answers_among (sent responses) ≡ map response_of postings.feed.collected },
    ghost told_by: { AreToldBy own (sent responses) replies },
    ghost searched: { ∥ HasSearched replies search ∥₁ },
    ghost looked: { ∥ HasLooked own limit replies look ∥₁ },
    ghost far: { ∥ IfSome out_of_sight (λ since. HasSeenLast own
        (2 ^ 64 - 1) (nothing_since since) replies) ∥₁ },
    ghost learned: { ∥ IsLearned own replies (sent responses)
        (entries_of postings.feed.asked) postings.posted earlier ∥₁ },
}

impl<L: OfficeLife> Session<L> {
    /// A counter that has said nothing yet.
    pub(crate) fn new(
        own: OwnPostings,
        messages: Consumer<Message>,
        responses: Producer<Response>,
        replies: Inbox<L>,
        feed: Feed,
        wakers: Arc<Wakers>,
        recent: Recent,
        closes_at_end: bool,
    ) -> Session<L>
        requires nothing_said { received messages ≡ [] }
        requires nothing_told { sent responses ≡ [] }
        requires nothing_heard { replies ≡ [] }
        requires nothing_asked { feed.asked ≡ [] }
        requires nothing_collected { feed.collected ≡ [] }
        ensures feed { result.postings.feed ≡ feed }
        ensures room { result.responses ≡ responses }
        ensures own { result.own ≡ own }
    {
        Session {
            own,
            messages,
            responses,
            replies,
            postings: Postings::new(feed),
            earlier: Earlier::Unlooked,
            wakers,
            closes_at_end,
            next: None,
            is_asked: false,
            search: Search::of(0),
            look: Look::starting_at(own.first),
            limit: u64::MAX,
            out_of_sight: None,
            recent,
            is_told_closing: false,
        }
    }

    /// What wakes its threads.
    pub(crate) fn wakers(&self) -> Result<Arc<Wakers>, AllocError> {
        Arc::try_clone(&self.wakers)
    }
}
