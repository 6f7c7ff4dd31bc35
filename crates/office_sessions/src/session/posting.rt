//! How a counter's entries are posted: each reference once.
ghost use Rattle.std.specs.Prelude.{◌≡◌, ◌≢◌, ◌+◌, ◌^◌, ◌<◌, max, IsTrue, IfSome, IfOk, IfErr};
ghost use Rattle.std.specs.Prelude.{Some, None, OnOk, IsOkAnd};
ghost use Rattle.text_grammar.specs.declared.requests.Request.TheVariants.{Post, Last, First};
ghost use Rattle.office_sessions.specs.declared.messages.Message.TheVariants.{Asked};
ghost use Rattle.office_sessions.specs.Conversation.{MayLook};
ghost use Rattle.office_sessions.specs.Looked.{earlier_by};
ghost use Rattle.office_sessions.specs.Replies.{IsJudgedBy, HasSeenLast, HasSeenAll, FailedLast};
ghost use Rattle.office_sessions.specs.Replies.{greatest_of};
ghost use Rattle.office_sessions.specs.Session.{HasPlace, OnlyTells, TellsNothing, KeepsLearned};
ghost use Rattle.office_sessions.specs.Session.{StaysAt};
ghost use Rattle.turn_ledger.specs.Entry.{reference_of};

use crate::look::{Look, LookAnswer, farther, judge};
use crate::postings::Submission;
use crate::recess::{Wish, WishOutcome};
use crate::replies::OfficeLife;
use crate::responses::{Judgement, Response};
use crate::scheduler::Scheduler;
use crate::session::{Earlier, Session};
use station_desk::Report;
use std::sync::Wait;
use turn_clerk::FindRefusal;
use turn_ledger::Entry;

impl<L: OfficeLife> Session<L> {
    // Posts the entry that is asked for next, for whose response there is a place; false if that
    // can't be done yet. One with a reference is submitted only if that is above all that were
    // posted here or are under way.
    pub(super) fn post<R: Wait>(&mut self, rt: &R, scheduler: &Scheduler<L>, entry: Entry) -> bool
        requires place { HasPlace self.old }
        requires next { self.old.next ≡ Some (Asked (Post entry)) }
        ensures stands { StaysAt self.old self.new }
        ensures handled { IsTrue result → self.new.next ≡ None }
    {
        if entry.reference() > 0 && self.earlier != Earlier::Known {
            return self.post_first(rt, scheduler, entry);
        }
        self.submit(rt, scheduler, entry)
    }

    // The same, if it isn't known whether its reference is above: that is found out first.
    fn post_first<R: Wait>(&mut self, rt: &R, scheduler: &Scheduler<L>, entry: Entry) -> bool
        requires place { HasPlace self.old }
        requires next { self.old.next ≡ Some (Asked (Post entry)) }
        ensures stands { StaysAt self.old self.new }
        ensures handled { IsTrue result → self.new.next ≡ None }
    {
        if self.postings.unanswered > 0 {
            return false;
        }
        match self.look_back(rt, scheduler) {
            None => false,
            Some(Err(refusal)) => self.tell_judgement(entry, Judgement::NotSeen(refusal)),
            Some(Ok(())) => match self.earlier {
                Earlier::Known => self.submit(rt, scheduler, entry),
                Earlier::OutOfSight(since) => {
                    self.tell_judgement(entry, Judgement::Unknown(since))
                }
                Earlier::Unlooked => false,
            },
        }
    }

    // Submits the entry, or, if its reference isn't above or is too far above, judges it behind all
    // that was asked before.
    fn submit<R: Wait>(&mut self, rt: &R, scheduler: &Scheduler<L>, entry: Entry) -> bool
        requires known { 0 < reference_of entry → self.old.earlier ≡ Earlier.Known }
        requires place { HasPlace self.old }
        requires next { self.old.next ≡ Some (Asked (Post entry)) }
        ensures stands { StaysAt self.old self.new }
        ensures handled { IsTrue result → self.new.next ≡ None }
    {
        match self.hand_in(scheduler, entry) {
            Submission::Submitted => true,
            Submission::NoPlace => false,
            Submission::NotAbove => {
                self.postings.unanswered == 0 && self.judge_repeated(rt, scheduler, entry)
            }
            Submission::TooFar => {
                self.postings.unanswered == 0 && self.tell_judgement(entry, Judgement::Reference)
            }
        }
    }

    // Hands the entry to the feed, if its reference is above.
    fn hand_in(&mut self, scheduler: &Scheduler<L>, entry: Entry) -> Submission
        requires known { 0 < reference_of entry → self.old.earlier ≡ Earlier.Known }
        requires place { HasPlace self.old }
        requires next { self.old.next ≡ Some (Asked (Post entry)) }
        ensures stands { StaysAt self.old self.new }
        ensures submitted { result ≡ Submission.Submitted → self.new.next ≡ None }
        ensures next { result ≢ Submission.Submitted → self.new.next ≡ self.old.next }
        ensures room { self.new.responses ≡ self.old.responses }
        ensures too_far { result ≡ Submission.TooFar
            → self.old.postings.posted + 2 ^ 32 < reference_of entry }
        ensures learned { result ≢ Submission.Submitted → KeepsLearned self.old self.new }
        ensures replies { self.new.replies ≡ self.old.replies }
        ensures unanswered { result ≢ Submission.Submitted
            → self.new.postings.unanswered ≡ self.old.postings.unanswered }
    {
        let submission = self.postings.submit(entry);
        match submission {
            Submission::Submitted => {
                self.next = None;
                scheduler.note_submitted();
            }
            Submission::NoPlace | Submission::NotAbove | Submission::TooFar => {}
        }
        submission
    }

    // Answers an entry whose reference isn't above those that were posted, by what stands under it.
    fn judge_repeated<R: Wait>(&mut self, rt: &R, scheduler: &Scheduler<L>, entry: Entry) -> bool
        requires place { HasPlace self.old }
        requires behind { self.old.postings.unanswered ≡ 0 }
        requires next { self.old.next ≡ Some (Asked (Post entry)) }
        ensures own { self.new.own ≡ self.old.own }
        ensures feed { self.new.postings.feed ≡ self.old.postings.feed }
        ensures handled { IsTrue result → self.new.next ≡ None }
    {
        let judgement = match self.look(rt, scheduler, entry.reference()) {
            None => return false,
            Some(Ok(seen)) => judge(&entry, &seen),
            Some(Err(refusal)) => Judgement::NotSeen(refusal),
        };
        self.tell_judgement(entry, judgement)
    }

    // Tells what became of the entry that is asked for next, and isn't submitted.
    fn tell_judgement(&mut self, entry: Entry, judgement: Judgement) -> bool
        requires place { HasPlace self.old }
        requires behind { self.old.postings.unanswered ≡ 0 }
        requires next { self.old.next ≡ Some (Asked (Post entry)) }
        requires by { ∥ IsJudgedBy self.old.own entry judgement
            self.old.replies ∥₁ }
        ensures told { IsTrue result }
        ensures own { self.new.own ≡ self.old.own }
        ensures feed { self.new.postings.feed ≡ self.old.postings.feed }
        ensures next { self.new.next ≡ None }
    {
        let response = Response::Judged { entry, judgement };
        self.next = None;
        self.responses.push_reserved(response);
        self.recent.note(response);
        self.wakers.note_given();
        true
    }

    // Looks at the counter's own postings up to that reference, step by step; None until that is
    // done.
    fn look<R: Wait>(
        &mut self,
        rt: &R,
        scheduler: &Scheduler<L>,
        limit: u64,
    ) -> Option<Result<LookAnswer, FindRefusal>>
        requires behind { self.old.postings.unanswered ≡ 0 }
        requires right { MayLook self.old.next self.old.own.station limit }
        ensures stays { TellsNothing self.old self.new }
        ensures learns { KeepsLearned self.old self.new }
        ensures seen { IfSome result (λ told. IfOk told (λ seen.
            HasSeenLast self.old.own limit seen self.new.replies)) }
        ensures failed { IfSome result (λ told. IfErr told (λ refusal.
            FailedLast refusal self.new.replies)) }
    {
        self.look_up_to(limit);
        let question = self.look.question(self.own.station, self.limit);
        let Some(Report::Searched(step)) = self.report(rt, scheduler, question) else {
            return None;
        };
        let seen = self.look.go_on(step);
        if seen.is_some() {
            self.look = Look::starting_at(self.own.first);
            return seen;
        }
        let question = self.look.question(self.own.station, self.limit);
        let _ = self.report(rt, scheduler, question);
        None
    }

    // Begins a look up to that reference, unless one up to it is under way. One up to another
    // reference is given up.
    fn look_up_to(&mut self, limit: u64)
        ensures stays { TellsNothing self.old self.new }
        ensures learns { KeepsLearned self.old self.new }
        ensures limit { self.new.limit ≡ limit }
    {
        if self.limit != limit {
            self.limit = limit;
            self.look = Look::starting_at(self.own.first);
        }
    }

    // Looks which references were posted here before the office was opened, if that isn't known;
    // None until it is.
    fn look_back<R: Wait>(
        &mut self,
        rt: &R,
        scheduler: &Scheduler<L>,
    ) -> Option<Result<(), FindRefusal>>
        requires behind { self.old.postings.unanswered ≡ 0 }
        requires right { MayLook self.old.next self.old.own.station u64.MAX }
        ensures stays { TellsNothing self.old self.new }
        ensures looked { IfSome result (λ told. OnOk told (self.new.earlier ≢ Earlier.Unlooked)) }
        ensures failed { IfSome result (λ told. IfErr told (λ refusal.
            FailedLast refusal self.new.replies)) }
    {
        if self.earlier != Earlier::Unlooked {
            return Some(Ok(()));
        }
        match self.look_far(rt, scheduler)? {
            Ok(seen) => {
                self.learn(seen);
                Some(Ok(()))
            }
            Err(refusal) => Some(Err(refusal)),
        }
    }

    // Looks at all of the counter's own postings: in the records in sight, and if none is there, in
    // the archive, for which a recess is called; None until that is done.
    fn look_far<R: Wait>(
        &mut self,
        rt: &R,
        scheduler: &Scheduler<L>,
    ) -> Option<Result<LookAnswer, FindRefusal>>
        requires behind { self.old.postings.unanswered ≡ 0 }
        requires right { MayLook self.old.next self.old.own.station u64.MAX }
        ensures stays { TellsNothing self.old self.new }
        ensures earlier { self.new.earlier ≡ self.old.earlier }
        ensures seen { IfSome result (λ told. IfOk told (λ seen.
            ∥ HasSeenAll self.old.own seen self.new.replies ∥₁)) }
        ensures failed { IfSome result (λ told. IfErr told (λ refusal.
            FailedLast refusal self.new.replies)) }
    {
        if self.out_of_sight.is_none() {
            let seen = match self.look(rt, scheduler, u64::MAX)? {
                Ok(seen) => seen,
                Err(refusal) => return Some(Err(refusal)),
            };
            match (seen.posting, seen.since) {
                (None, 1..) => self.out_of_sight = Some(seen.since),
                (Some(_), _) | (None, 0) => return Some(Ok(seen)),
            }
        }
        self.look_in_archive(rt, scheduler)
    }

    // Goes on in the archive, behind a look that saw nothing in sight; None until that is done.
    fn look_in_archive<R: Wait>(
        &mut self,
        rt: &R,
        scheduler: &Scheduler<L>,
    ) -> Option<Result<LookAnswer, FindRefusal>>
        requires behind { self.old.postings.unanswered ≡ 0 }
        ensures stays { TellsNothing self.old self.new }
        ensures earlier { self.new.earlier ≡ self.old.earlier }
        ensures seen { IfSome result (λ told. IsOkAnd told (λ seen.
            ∥ HasSeenAll self.old.own seen self.new.replies ∥₁)) }
    {
        let since = self.out_of_sight?;
        let WishOutcome::Last(in_archive) = self.what_came(rt, scheduler, Wish::Last)? else {
            return None;
        };
        Some(Ok(farther(since, in_archive)))
    }

    // Learns which reference was posted last.
    fn learn(&mut self, seen: LookAnswer)
        requires seen { ∥ HasSeenAll self.old.own seen self.old.replies ∥₁ }
        ensures heard { self.new.replies ≡ self.old.replies }
        ensures learned { self.old.earlier ≡ Earlier.Unlooked → self.new.earlier ≡ earlier_by seen }
        ensures known { self.new.earlier ≢ Earlier.Unlooked }
        ensures same { self.old.earlier ≢ Earlier.Unlooked → self.new.earlier ≡ self.old.earlier }
        ensures greatest { self.new.postings.posted
            ≡ max self.old.postings.posted (greatest_of seen) }
        ensures stays { TellsNothing self.old self.new }
    {
        self.postings.raise(seen.greatest());
        match self.earlier {
            Earlier::Unlooked => self.earlier = Earlier::by(&seen),
            Earlier::OutOfSight(_) | Earlier::Known => {}
        }
    }

    // Tells which reference was posted here last; false if that isn't known yet.
    pub(super) fn tell_last<R: Wait>(&mut self, rt: &R, scheduler: &Scheduler<L>) -> bool
        requires place { HasPlace self.old }
        requires behind { self.old.postings.unanswered ≡ 0 }
        requires next { self.old.next ≡ Some (Asked Last) }
        ensures stays { OnlyTells self.old self.new }
        ensures handled { IsTrue result → self.new.next ≡ None }
    {
        match self.look_far(rt, scheduler) {
            None => false,
            Some(Ok(seen)) => {
                self.learn(seen);
                self.respond(Response::Last(seen))
            }
            Some(Err(refusal)) => self.respond(Response::NotFound(refusal)),
        }
    }

    // Lets references begin with that one, if it is above all that were posted here as far as one
    // sees; false if that isn't known yet.
    pub(super) fn begin_with<R: Wait>(
        &mut self,
        rt: &R,
        scheduler: &Scheduler<L>,
        reference: u64,
    ) -> bool
        requires place { HasPlace self.old }
        requires behind { self.old.postings.unanswered ≡ 0 }
        requires next { self.old.next ≡ Some (Asked (First reference)) }
        ensures stays { OnlyTells self.old self.new }
        ensures handled { IsTrue result → self.new.next ≡ None }
    {
        match self.look_back(rt, scheduler) {
            None => return false,
            Some(Err(refusal)) => return self.respond(Response::NotFound(refusal)),
            Some(Ok(())) => {}
        }
        if reference <= self.postings.greatest() {
            return self.respond(Response::NotFirst { reference });
        }
        let told = self.respond(Response::First { reference });
        self.earlier = Earlier::Known;
        self.postings.raise(reference - 1);
        told
    }
}
