//! A search for a reference, step by step.
ghost use Rattle.std.specs.Prelude.{◌≡◌, List, IfOk, IfErr};
ghost use Rattle.office_sessions.specs.Conversation.{step_of_posting, step_of};
ghost use Rattle.office_sessions.specs.Conversation.{counted_with, IsCountedBy, IsFresh};
ghost use Rattle.office_sessions.specs.Replies.{HasSearched, SearchesOn, CameLast, step_of_search};
ghost use Rattle.office_sessions.specs.Replies.{IsToldByStep};
ghost use Rattle.office_sessions.specs.Right.{GoesAhead, SearchGoesAhead};
ghost use Rattle.office_sessions.specs.declared.look.OwnPostings.{OwnPostings};
ghost use Rattle.office_sessions.specs.declared.replies.Reply.{Reply};

use crate::responses::Response;
use station_desk::Question;
use turn_clerk::{FindRefusal, Posting, Reached, SearchStep, SearchTarget};

/// How far the search is that a counter asked for last.
#[derive(Clone, Copy, Debug)]
pub(crate) struct Search {
    // What is looked for.
    reference: u64,
    // The number of the record that is looked at next.
    from: u64,
    // The number behind the last record that is looked at, which the first step that looks at
    // records tells: what is posted while the search goes on is none of its records.
    end: u64,
    // How many records with the reference were found.
    count: u64,
}

/// What comes of one step.
#[derive(Clone, Copy, Debug)]
pub(crate) enum Step {
    /// Nothing that is told: the search goes on.
    UnderWay,
    /// The reference was found in the batch of this number. The search goes on.
    Found(u64),
    /// The search is over, and the counter is told this.
    Last(Response),
}

impl Search {
    /// A search for a reference that begins with the first record, and goes up to the last that
    /// there is at its first step.
    pub(crate) fn of(reference: u64) -> Search
        ensures begins { (heard : List Reply) → HasSearched heard result }
        ensures reference { result.reference ≡ reference }
        ensures fresh { IsFresh result }
    {
        Search {
            reference,
            from: 0,
            end: u64::MAX,
            count: 0,
        }
    }

    /// What it looks for.
    pub(crate) fn reference(&self) -> u64
        ensures { result ≡ self.now.reference }
    {
        self.reference
    }

    /// What is asked next.
    pub(crate) fn question(&self) -> Question
        ensures { result ≡ Question.Search (SearchTarget.Reference self.now.reference)
            self.now.from self.now.end }
    {
        Question::Search {
            sought: SearchTarget::Reference(self.reference),
            from: self.from,
            end: self.end,
        }
    }

    /// Goes on by what was found.
    pub(crate) fn go_on(&mut self, found: Result<SearchStep, FindRefusal>) -> Step
        ensures told { result ≡ step_of self.old.count found }
        ensures on { IfOk found (λ step. SearchesOn self.old step self.new) }
        ensures failed { IfErr found (λ refusal. self.new ≡ self.old) }
        ensures counts { IsCountedBy self.old result self.new }
        ensures ahead { IfOk found (λ step. GoesAhead self.old.from step.posting step.reached)
            → SearchGoesAhead self.old result self.new }
        ensures by { (own : OwnPostings) (heard : List Reply) → ∥ HasSearched heard self.old ∥₁
            → CameLast (step_of_search self.old found) heard
            → IsToldByStep own self.old.reference result heard }
    {
        let step = match found {
            Ok(step) => step,
            Err(refusal) => return Step::Last(Response::NotFound(refusal)),
        };
        match step.reached {
            Reached::Further { number, end, .. } => {
                self.from = number;
                self.end = end;
                self.count(step.posting)
            }
            Reached::LookingBack => Step::UnderWay,
            Reached::All { since, .. } => Step::Last(Response::FoundInAll {
                count: self.count,
                since,
            }),
        }
    }

    // Counts the record that was found, if one was.
    fn count(&mut self, posting: Option<Posting>) -> Step
        ensures told { result ≡ step_of_posting posting }
        ensures counted { self.new.count ≡ counted_with self.old.count posting }
        ensures reference { self.new.reference ≡ self.old.reference }
        ensures from { self.new.from ≡ self.old.from }
        ensures end { self.new.end ≡ self.old.end }
    {
        let Some(posting) = posting else {
            return Step::UnderWay;
        };
        self.count = self.count.saturating_add(1);
        Step::Found(posting.number)
    }
}
