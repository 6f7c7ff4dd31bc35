//! A look at what was posted at a counter, step by step.
ghost use Rattle.std.specs.Prelude.{◌≡◌, ◌≢◌, ◌⊎◌, ◌↔◌, ◌<◌, ◌≤◌, ℕ, List, false, IfOk, IfErr};
ghost use Rattle.std.specs.Prelude.{IfSome, Some, None};
ghost use Rattle.sector_device.specs.Crash.{LooksOnly};
ghost use Rattle.gate_journal.specs.Journal.{after_reads};
ghost use Rattle.journal_recovery.specs.LookBack.{FitsSlots};
ghost use Rattle.turn_clerk.specs.declared.refusals.FindRefusal.{FindRefusal};
ghost use Rattle.turn_ledger.specs.Entry.{reference_of};
ghost use Rattle.office_sessions.specs.Conversation.{own_question};
ghost use Rattle.office_sessions.specs.Looked.{seen_with, seen_farther, GoesOnBy, Meets};
ghost use Rattle.office_sessions.specs.Looked.{BeginsAnew, HasSeen, IsAbove};
ghost use Rattle.office_sessions.specs.Replies.{IsUnknown, IsUsed, IsJudgedBy, HasSeenLast};
ghost use Rattle.office_sessions.specs.Replies.{IsWithin, greatest_of};
ghost use Rattle.office_sessions.specs.declared.replies.Reply.{Reply};

use crate::responses::Judgement;
use gate_journal::Journal;
use journal_recovery::LookBack;
use sector_device::Device;
use station_desk::Question;
use std::fmt;
use turn_clerk::{FindRefusal, Posting, Reached, SearchStep, SearchTarget, later_posting, search};
use turn_ledger::{Entry, Ledger};

/// More steps than any ledger needs: of 2,000,000 records, and as many slots of a bank that is
/// looked back to.
const MOST_STEPS: u64 = 20_000;

/// Whose postings a session looks at.
#[derive(Clone, Copy, Debug, PartialEq, Eq)]
pub struct OwnPostings {
    /// Those of this station.
    pub station: u8,
    /// The number of the batch from which on only offices posted: what stands before it is no
    /// counter's.
    pub first: u64,
}

/// How far a look is that is under way. Between two of its steps records may go out of sight that
/// it didn't look at: what it saw before such a gap doesn't count any more.
#[derive(Clone, Copy, Debug)]
pub struct Look {
    // The number of the record that is looked at next.
    from: u64,
    // The number of the first of the records up to there that were looked at without a gap.
    since: u64,
    // Of the postings in these the one with the greatest reference; of several the last.
    posting: Option<Posting>,
}

/// What a look tells.
#[derive(Clone, Copy, Debug, PartialEq, Eq)]
pub struct LookAnswer {
    /// The counter's posting with the greatest reference, of those that were looked at; of several
    /// the last.
    pub posting: Option<Posting>,
    /// The number of the record from which on all were looked at.
    pub since: u64,
}

impl LookAnswer {
    // The greatest reference that was seen; 0 if none was.
    pub(crate) fn greatest(&self) -> u64
        ensures value { result ≡ greatest_of self.now }
        ensures within { IsWithin result self.now }
    {
        match self.posting {
            Some(last) => last.entry.reference(),
            None => 0,
        }
    }
}

/// The reference and the number of its batch; or that there is none; or from which batch on there
/// is none, if earlier ones aren't in sight.
impl fmt::Display for LookAnswer {
    fn fmt<W: fmt::Write>(&self, f: &mut fmt::Formatter<W>) -> fmt::Result {
        match (self.posting, self.since) {
            (Some(last), _) => write!(f, "{} {}", last.entry.reference(), last.number),
            (None, 0) => f.write_str("none"),
            (None, since) => write!(f, "unknown since {since}"),
        }
    }
}

impl Look {
    /// A look that begins with the record of that number: what stands before it is neither found
    /// nor known.
    pub fn starting_at(batch: u64) -> Look
        ensures begins { result ≡ record { from = batch; since = batch; posting = None } }
        ensures whole { HasSeen result.since result.from result.posting }
    {
        Look {
            from: batch,
            since: batch,
            posting: None,
        }
    }

    /// What is asked next: the station's posting with the greatest reference, up to that one.
    pub fn question(&self, station: u8, limit: u64) -> Question
        ensures { result ≡ own_question station limit self.now.from }
    {
        Question::Search {
            sought: SearchTarget::OfStation { station, limit },
            from: self.from,
            end: u64::MAX,
        }
    }

    /// Goes on by what was found. What the whole look tells, if it is over.
    pub fn go_on(
        &mut self,
        step: Result<SearchStep, FindRefusal>,
    ) -> Option<Result<LookAnswer, FindRefusal>>
        ensures seen { result ≡ seen_with self.new step }
        ensures meets { IfOk step (λ told. GoesOnBy self.old told.posting told.reached self.new) }
        ensures whole { HasSeen self.old.since self.old.from self.old.posting
            → HasSeen self.new.since self.new.from self.new.posting }
        ensures found { IfOk step (λ told. (self.new.posting ≡ self.old.posting)
            ⊎ (self.new.posting ≡ told.posting)) }
        ensures failed { IfErr step (λ refusal. self.new ≡ self.old) }
    {
        let told = match step {
            Ok(told) => told,
            Err(refusal) => return Some(Err(refusal)),
        };
        match told.reached {
            Reached::Further { began, number, .. } => {
                self.take_in(began, told.posting);
                self.from = number;
                None
            }
            Reached::LookingBack => None,
            Reached::All { began, .. } => {
                self.take_in(began, told.posting);
                Some(Ok(LookAnswer {
                    posting: self.posting,
                    since: self.since,
                }))
            }
        }
    }

    // Takes in what a step found that began with the record of that number. If it passed over
    // records, nothing that was seen before them counts.
    fn take_in(&mut self, began: u64, posting: Option<Posting>)
        ensures same { self.new.from ≡ self.old.from }
        ensures meets { began ≤ self.old.from → Meets self.old posting self.new }
        ensures gap { self.old.from < began → BeginsAnew began posting self.new }
        ensures found { (self.new.posting ≡ self.old.posting) ⊎ (self.new.posting ≡ posting) }
    {
        if self.from < began {
            self.since = began;
            self.posting = posting;
        } else {
            self.posting = later_posting(self.posting, posting);
        }
    }

    // Takes the next step, in the records of a journal. What the whole look tells, if it is over.
    fn step<D: Device>(
        &mut self,
        journal: &mut Journal<D>,
        back: &mut LookBack,
        ledger: &mut Ledger,
        station: u8,
    ) -> Option<Result<LookAnswer, FindRefusal>>
        requires works { journal.old.faulted ≡ false }
        requires fits { FitsSlots journal.old.slots journal.old.live back.old }
        ensures kept { journal.new ≡ after_reads journal.old journal.new.device }
        ensures fits { FitsSlots journal.new.slots journal.new.live back.new }
        ensures looks { LooksOnly (D.state journal.old.device) (D.state journal.new.device) }
        ensures honest { (D.state journal.old.device).honest
            → (D.state journal.new.device).honest }
        ensures above { IsAbove self.old.posting → IsAbove self.new.posting }
        ensures told { IfSome result (λ seen. IfOk seen (λ all. all.posting ≡ self.new.posting)) }
    {
        let limit = u64::MAX;
        let sought = SearchTarget::OfStation { station, limit };
        let step = search(journal, back, ledger, sought, self.from, u64::MAX);
        self.go_on(step.map_err(FindRefusal::from))
    }
}

/// The posting of a station with the greatest reference in the records in sight of a journal, from
/// the one of that number on; None if they can't be read. Whatever the ledger holds, it is used to
/// find out how far back one sees.
pub fn last_posting<D: Device>(
    journal: &mut Journal<D>,
    ledger: &mut Ledger,
    station: u8,
    first: u64,
) -> Option<LookAnswer>
    ensures kept { journal.new ≡ after_reads journal.old journal.new.device }
    ensures looks { LooksOnly (D.state journal.old.device) (D.state journal.new.device) }
    ensures above { IfSome result
        (λ seen. IfSome seen.posting (λ last. 0 < reference_of last.entry)) }
{
    if journal.is_faulted() {
        return None;
    }
    let mut look = Look::starting_at(first);
    let mut back = LookBack::Unknown;
    for _ in 0..MOST_STEPS {
        if let Some(seen) = look.step(journal, &mut back, ledger, station) {
            return seen.ok();
        }
    }
    None
}

/// What a look tells that goes on in the archive, behind one that saw nothing from that number on.
pub(crate) fn farther(since: u64, in_archive: Option<LookAnswer>) -> LookAnswer
    ensures { result ≡ seen_farther since in_archive }
{
    match in_archive {
        Some(seen) => LookAnswer {
            posting: seen.posting,
            since: seen.since.min(since),
        },
        None => LookAnswer {
            posting: None,
            since,
        },
    }
}

/// What becomes of an entry whose reference isn't above those that were posted, by the look at the
/// postings up to it. It is answered as it was then, if it stands. If nothing in sight has its
/// reference, and there are batches out of sight, nobody knows.
pub(crate) fn judge(entry: &Entry, seen: &LookAnswer) -> Judgement
    ensures stands { (number : ℕ) → (result ≡ Judgement.Posted number)
        ↔ (seen.now.posting ≡ Some (record { number = number; entry = entry.now })) }
    ensures unknown { (since : ℕ) → (result ≡ Judgement.Unknown since)
        ↔ IsUnknown entry.now seen.now since }
    ensures used { result ≡ Judgement.Reference → IsUsed entry.now seen.now }
    ensures seen { (refusal : FindRefusal) → result ≢ Judgement.NotSeen refusal }
    ensures by { (own : OwnPostings) (heard : List Reply)
        → HasSeenLast own (reference_of entry.now) seen.now heard
        → IsJudgedBy own entry.now result heard }
{
    match seen.posting {
        Some(found) if found.entry == *entry => Judgement::Posted(found.number),
        Some(found) if found.entry.reference() == entry.reference() => Judgement::Reference,
        Some(_) | None => {
            if seen.since > 0 {
                Judgement::Unknown(seen.since)
            } else {
                Judgement::Reference
            }
        }
    }
}
