//! What a counter posts, and which references it may still use.
//!
//! The references of a counter rise: an entry with a reference above 0 is submitted only if that is
//! above each one that was posted there, and above each one that is under way. So an entry that a
//! client repeats is never posted twice.
ghost use Rattle.std.specs.Prelude.{◌≡◌, ◌≢◌, ◌⊎◌, ◌↔◌, ◌+◌, ◌^◌, ◌<◌, ◌≤◌, [], ◌∷◌, ◌++◌, length};
ghost use Rattle.std.specs.Prelude.{max, false, IsTrue, IfSome, IsSome, None};
ghost use Rattle.turn_ledger.specs.Entry.{reference_of};
ghost use Rattle.station_desk.specs.Messages.{entries_of};
ghost use Rattle.station_desk.specs.Rings.{StandsAt};
ghost use Rattle.office_sessions.specs.Rising.{AreAbove, AreWithin, AreUnderWay};

use station_desk::{Answer, Feed, Outcome};
use turn_ledger::Entry;

/// How far a reference may be above the last one that is known. One that is farther is taken for a
/// mistake, which would leave the counter no references.
const FARTHEST: u64 = 4_294_967_296;

/// A counter's feed, and what is known of the references in it.
#[derive(Drop)]
pub(crate) struct Postings {
    pub(crate) feed: Feed,
    // How many requests are submitted, and not answered.
    pub(crate) unanswered: usize,
    // No posting that was answered, or that was found in the ledger, has a reference above this
    // one.
    pub(crate) posted: u64,
    // No request that isn't answered has one above this.
    under_way: u64,
    ghost counted: { unanswered + length feed.collected ≡ length feed.asked },
    ghost within: { AreWithin posted feed.collected },
    ghost begun: { AreUnderWay under_way feed.asked feed.collected },
    ghost above: { AreAbove feed.asked feed.collected },
}

/// What became of an entry that was to be submitted.
#[derive(Clone, Copy, Debug, PartialEq, Eq)]
pub(crate) enum Submission {
    /// It is submitted.
    Submitted,
    /// There is no place for it now.
    NoPlace,
    /// Its reference isn't above each one that was posted or is under way.
    NotAbove,
    /// Its reference is too far above the last one that was posted.
    TooFar,
}

impl Postings {
    /// None yet.
    pub(crate) fn new(feed: Feed) -> Postings
        requires nothing_asked { feed.asked ≡ [] }
        requires nothing_collected { feed.collected ≡ [] }
        ensures feed { result.feed ≡ feed }
        ensures unanswered { result.unanswered ≡ 0 }
    {
        Postings {
            feed,
            unanswered: 0,
            posted: 0,
            under_way: 0,
        }
    }

    /// The feed.
    pub(crate) fn into_feed(self) -> Feed
        ensures feed { result ≡ self.feed }
        ensures above { AreAbove result.asked result.collected }
    {
        self.feed
    }

    /// The greatest reference that is known to be posted; 0 if none is.
    pub(crate) fn greatest(&self) -> u64
        ensures { result ≡ self.now.posted }
    {
        self.posted
    }

    /// References up to this one may be posted, as far as one knows.
    pub(crate) fn raise(&mut self, reference: u64)
        ensures greatest { self.new.posted ≡ max self.old.posted reference }
        ensures feed { self.new.feed ≡ self.old.feed }
        ensures unanswered { self.new.unanswered ≡ self.old.unanswered }
    {
        self.posted = self.posted.max(reference);
    }

    /// Collects the oldest answer that has come, if there is one.
    pub(crate) fn collect(&mut self) -> Option<Answer>
        ensures rings { StandsAt self.old.feed self.new.feed }
        ensures asked { self.new.feed.asked ≡ self.old.feed.asked }
        ensures collected { IfSome result (λ answer.
            self.new.feed.collected ≡ self.old.feed.collected ++ answer ∷ []) }
        ensures counted { IsSome result → self.new.unanswered + 1 ≡ self.old.unanswered }
        ensures never_falls { self.old.posted ≤ self.new.posted }
        ensures none { result ≡ None → (self.new.feed.collected ≡ self.old.feed.collected)
            × (self.new.unanswered ≡ self.old.unanswered) }
    {
        if self.unanswered == 0 {
            return None;
        }
        let answer = self.feed.answer()?;
        self.unanswered -= 1;
        if let Outcome::Posted(_) = answer.outcome {
            self.posted = self.posted.max(answer.entry.reference());
        }
        Some(answer)
    }

    /// Submits an entry, unless its reference isn't above, or is too far above.
    pub(crate) fn submit(&mut self, entry: Entry) -> Submission
        ensures rings { StandsAt self.old.feed self.new.feed }
        ensures submitted { result ≡ Submission.Submitted
            → (entries_of self.new.feed.asked ≡ entries_of self.old.feed.asked ++ entry ∷ [])
            × (self.new.unanswered ≡ self.old.unanswered + 1) }
        ensures collected { self.new.feed.collected ≡ self.old.feed.collected }
        ensures not_submitted { result ≢ Submission.Submitted → (self.new.feed ≡ self.old.feed)
            × (self.new.unanswered ≡ self.old.unanswered) }
        ensures is_above { result ≢ Submission.NotAbove → 0 < reference_of entry
            → self.old.posted < reference_of entry }
        ensures not_above { result ≡ Submission.NotAbove → (0 < reference_of entry)
            × ((reference_of entry ≤ self.old.posted) ⊎ (0 < self.old.unanswered)) }
        ensures no_place { result ≡ Submission.NoPlace
            → (self.old.feed.free ≡ 0) ⊎ (length self.old.feed.asked ≡ u64.MAX) }
        ensures posted { self.new.posted ≡ self.old.posted }
        ensures too_far { (result ≡ Submission.TooFar)
            ↔ (self.old.posted + 2 ^ 32 < reference_of entry) }
    {
        if entry.reference() > self.posted.saturating_add(FARTHEST) {
            return Submission::TooFar;
        }
        self.free_refused();
        if !self.is_above(entry.reference()) {
            return Submission::NotAbove;
        }
        match self.feed.submit(entry) {
            Ok(_) => {
                self.unanswered += 1;
                self.under_way = self.under_way.max(entry.reference());
                Submission::Submitted
            }
            Err(_) => Submission::NoPlace,
        }
    }

    // Where all is answered nothing is under way: the reference of what was refused is free.
    fn free_refused(&mut self)
        ensures feed { self.new.feed ≡ self.old.feed }
        ensures unanswered { self.new.unanswered ≡ self.old.unanswered }
        ensures posted { self.new.posted ≡ self.old.posted }
        ensures freed { self.old.unanswered ≡ 0 → self.new.under_way ≡ 0 }
    {
        if self.unanswered == 0 {
            self.under_way = 0;
        }
    }

    // Whether the reference is 0, or above each one that is posted or under way.
    fn is_above(&self, reference: u64) -> bool
        ensures above { IsTrue result → 0 < reference
            → (self.now.posted < reference) × (self.now.under_way < reference) }
        ensures not_above { result ≡ false → (0 < reference)
            × ((reference ≤ self.now.posted) ⊎ (reference ≤ self.now.under_way)) }
    {
        reference == 0 || reference > self.posted && reference > self.under_way
    }
}
