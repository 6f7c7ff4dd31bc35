//! What a counter asks that is no entry: of its station, or of a recess.
ghost use Rattle.std.specs.Prelude.{◌≡◌, [], ◌∷◌, ◌++◌, false, IsTrue, IfSome, IfOk, Some, None};
ghost use Rattle.text_grammar.specs.declared.requests.Request.TheVariants.{Balance, Find, Archive};
ghost use Rattle.text_grammar.specs.declared.requests.Request.TheVariants.{Copy, Status};
ghost use Rattle.office_sessions.specs.declared.messages.Message.TheVariants.{Asked};
ghost use Rattle.office_sessions.specs.Conversation.{IsAskedBy, IsCountedBy, EndsCount};
ghost use Rattle.office_sessions.specs.Replies.{CameLast, IsToldBy, HasSearched, step_of_search};
ghost use Rattle.office_sessions.specs.Right.{GoesAhead, SearchGoesAhead, IsRight};
ghost use Rattle.office_sessions.specs.Session.{HasPlace, OnlyTells, TellsNothing, KeepsLooking};
ghost use Rattle.office_sessions.specs.Session.{KeepsLearned};

use crate::recess::{ArchiveState, Wish, WishOutcome};
use crate::replies::{OfficeLife, Reply};
use crate::responses::Response;
use crate::scheduler::Scheduler;
use crate::search::{Search, Step};
use crate::session::Session;
use crate::status::{Clients, OfficeStatus};
use station_desk::{Question, Report};
use std::sync::Wait;
use turn_clerk::{FindRefusal, SearchStep};

impl<L: OfficeLife> Session<L> {
    // What the station reports on a question, which is put to it once, behind all that was asked
    // before.
    pub(super) fn report<R: Wait>(
        &mut self,
        rt: &R,
        scheduler: &Scheduler<L>,
        question: Question,
    ) -> Option<Report>
        requires behind { self.old.postings.unanswered ≡ 0 }
        requires right { IsAskedBy self.old.next self.old.search self.old.own.station
            self.old.look.from question }
        ensures stays { TellsNothing self.old self.new }
        ensures keeps { KeepsLooking self.old self.new }
        ensures last { IfSome result (λ report.
            CameLast (Reply.Report question report) self.new.replies) }
        ensures right { IfSome result (L.reports question) }
    {
        if !self.is_asked {
            self.is_asked = true;
            scheduler.put_question(rt, self.own.station, question);
            return None;
        }
        match self.next_reply()? {
            Reply::Report {
                question: asked,
                report,
            } if asked == question => Some(report),
            // asked again
            Reply::Report { .. } | Reply::Outcome(_) => None,
        }
    }

    // The reply to what was asked last, if it has come. A look that waits for the archive ends with
    // it.
    fn next_reply(&mut self) -> Option<Reply>
        ensures stays { TellsNothing self.old self.new }
        ensures keeps { KeepsLooking self.old self.new }
        ensures last { IfSome result (λ reply.
            self.new.replies ≡ self.old.replies ++ reply ∷ []) }
        ensures right { IfSome result (IsRight L.reports) }
        ensures none { result ≡ None → self.new.out_of_sight ≡ self.old.out_of_sight }
    {
        match self.replies.take() {
            Some(reply) => {
                self.is_asked = false;
                self.out_of_sight = None;
                Some(reply)
            }
            None => None,
        }
    }

    // Tells what an account holds; false if that isn't known yet.
    pub(super) fn tell_balance<R: Wait>(
        &mut self,
        rt: &R,
        scheduler: &Scheduler<L>,
        account: u32,
    ) -> bool
        requires place { HasPlace self.old }
        requires behind { self.old.postings.unanswered ≡ 0 }
        requires next { self.old.next ≡ Some (Asked (Balance account)) }
        ensures stays { OnlyTells self.old self.new }
        ensures handled { IsTrue result → self.new.next ≡ None }
    {
        match self.report(rt, scheduler, Question::Balance(account)) {
            Some(Report::Balance(answer)) => self.respond(Response::of_balance(account, answer)),
            Some(Report::Searched(_) | Report::Room(_)) | None => false,
        }
    }

    // Tells under which numbers a reference was posted, one after another; false until the last is
    // told.
    pub(super) fn tell_found<R: Wait>(
        &mut self,
        rt: &R,
        scheduler: &Scheduler<L>,
        reference: u64,
    ) -> bool
        requires place { HasPlace self.old }
        requires behind { self.old.postings.unanswered ≡ 0 }
        requires next { self.old.next ≡ Some (Asked (Find reference)) }
        ensures stays { OnlyTells self.old self.new }
        ensures handled { IsTrue result → self.new.next ≡ None }
    {
        self.search_for(reference);
        let question = self.search.question();
        let Some(Report::Searched(found)) = self.report(rt, scheduler, question) else {
            return false;
        };
        if self.tell_step(found) {
            return true;
        }
        let question = self.search.question();
        let _ = self.report(rt, scheduler, question);
        false
    }

    // Begins a search, unless one for that reference is under way.
    fn search_for(&mut self, reference: u64)
        requires next { self.old.next ≡ Some (Asked (Find reference)) }
        ensures stays { TellsNothing self.old self.new }
        ensures learned { KeepsLearned self.old self.new }
        ensures reference { self.new.search.reference ≡ reference }
    {
        if self.search.reference() != reference {
            self.search = Search::of(reference);
        }
    }

    // Goes on with the search by what was found, and tells that; false until the last is told.
    fn tell_step(&mut self, found: Result<SearchStep, FindRefusal>) -> bool
        requires place { HasPlace self.old }
        requires behind { self.old.postings.unanswered ≡ 0 }
        requires next { self.old.next ≡ Some (Asked (Find self.old.search.reference)) }
        requires last { CameLast (step_of_search self.old.search found) self.old.replies }
        requires ahead { IfOk found (λ step.
            GoesAhead self.old.search.from step.posting step.reached) }
        ensures stays { OnlyTells self.old self.new }
        ensures handled { IsTrue result → self.new.next ≡ None }
        ensures goes_on { result ≡ false → (self.new.next ≡ self.old.next)
            × (self.new.search.reference ≡ self.old.search.reference) }
    {
        let mut search = self.search;
        let step = search.go_on(found);
        match step {
            Step::UnderWay => self.search = search,
            Step::Found(number) => self.tell_record(search, number),
            Step::Last(last) => return self.end_search(last),
        }
        false
    }

    // Tells of a record that the search found, and goes on with that one.
    fn tell_record(&mut self, search: Search, number: u64)
        requires place { HasPlace self.old }
        requires behind { self.old.postings.unanswered ≡ 0 }
        requires next { self.old.next ≡ Some (Asked (Find self.old.search.reference)) }
        requires counted { IsCountedBy self.old.search (Step.Found number) search }
        requires ahead { SearchGoesAhead self.old.search (Step.Found number) search }
        requires searched { ∥ HasSearched self.old.replies search ∥₁ }
        requires by { IsToldBy self.old.own
            (Response.Found number self.old.search.reference) self.old.replies }
        ensures stays { OnlyTells self.old self.new }
        ensures goes_on { self.new.next ≡ self.old.next }
        ensures search { self.new.search ≡ search }
    {
        let response = Response::Found {
            number,
            reference: self.search.reference(),
        };
        self.search = search;
        self.responses.push_reserved(response);
        self.recent.note(response);
        self.wakers.note_given();
    }

    // Tells how the search ended; with it the message is answered, and another one begins anew.
    fn end_search(&mut self, last: Response) -> bool
        requires place { HasPlace self.old }
        requires behind { self.old.postings.unanswered ≡ 0 }
        requires next { self.old.next ≡ Some (Asked (Find self.old.search.reference)) }
        requires counted { EndsCount self.old.search.count last }
        requires by { IsToldBy self.old.own last self.old.replies }
        ensures done { IsTrue result }
        ensures stays { OnlyTells self.old self.new }
        ensures handled { self.new.next ≡ None }
    {
        self.search = Search::of(self.search.reference());
        self.next = None;
        self.responses.push_reserved(last);
        self.recent.note(last);
        self.wakers.note_given();
        true
    }

    // What came of a wish, for which a recess is called once, behind all that was asked before.
    pub(super) fn what_came<R: Wait>(
        &mut self,
        rt: &R,
        scheduler: &Scheduler<L>,
        wish: Wish,
    ) -> Option<WishOutcome>
        requires behind { self.old.postings.unanswered ≡ 0 }
        ensures stays { TellsNothing self.old self.new }
        ensures keeps { KeepsLooking self.old self.new }
        ensures last { IfSome result (λ came. self.new.replies
            ≡ self.old.replies ++ Reply.Outcome came ∷ []) }
    {
        if !self.is_asked {
            self.is_asked = true;
            scheduler.call_recess(rt, self.own.station, wish);
            return None;
        }
        match self.next_reply()? {
            Reply::Outcome(came) => Some(came),
            // called again
            Reply::Report { .. } => None,
        }
    }

    // Tells how far the archive is; false if that isn't known yet. Where it can't be kept the
    // office closes, and tells that.
    pub(super) fn tell_archived<R: Wait>(&mut self, rt: &R, scheduler: &Scheduler<L>) -> bool
        requires place { HasPlace self.old }
        requires behind { self.old.postings.unanswered ≡ 0 }
        requires next { self.old.next ≡ Some (Asked Archive) }
        ensures stays { OnlyTells self.old self.new }
        ensures handled { IsTrue result → self.new.next ≡ None }
    {
        match self.what_came(rt, scheduler, Wish::Archive) {
            Some(WishOutcome::Archive(ArchiveState::UpTo(next))) => self.respond(
                Response::Archived { next },
            ),
            Some(WishOutcome::Archive(ArchiveState::NoArchive)) => self.respond(
                Response::NoArchive,
            ),
            Some(
                WishOutcome::Archive(ArchiveState::Failed)
                | WishOutcome::Copy(_)
                | WishOutcome::Last(_),
            )
            | None => false,
        }
    }

    // Tells of a copy; false if it isn't made yet.
    pub(super) fn tell_copied<R: Wait>(&mut self, rt: &R, scheduler: &Scheduler<L>) -> bool
        requires place { HasPlace self.old }
        requires behind { self.old.postings.unanswered ≡ 0 }
        requires next { self.old.next ≡ Some (Asked Copy) }
        ensures stays { OnlyTells self.old self.new }
        ensures handled { IsTrue result → self.new.next ≡ None }
    {
        match self.what_came(rt, scheduler, Wish::Copy) {
            Some(WishOutcome::Copy(Ok(next))) => self.respond(Response::Copied { next }),
            Some(WishOutcome::Copy(Err(refusal))) => self.respond(Response::NoCopy(refusal)),
            Some(WishOutcome::Archive(_) | WishOutcome::Last(_)) | None => false,
        }
    }

    // Tells how the office stands; false if that isn't known yet.
    pub(super) fn tell_status<R: Wait, C: Clients>(
        &mut self,
        rt: &R,
        scheduler: &Scheduler<L>,
        clients: &mut C,
    ) -> bool
        requires place { HasPlace self.old }
        requires behind { self.old.postings.unanswered ≡ 0 }
        requires next { self.old.next ≡ Some (Asked Status) }
        ensures stays { OnlyTells self.old self.new }
        ensures handled { IsTrue result → self.new.next ≡ None }
    {
        let Some(Report::Room(room)) = self.report(rt, scheduler, Question::Room) else {
            return false;
        };
        let (kept, turns) = (scheduler.kept(rt), scheduler.turns());
        let others = clients.others(self.own.station);
        self.respond(Response::Status(OfficeStatus::new(room, kept, turns, others)))
    }
}
