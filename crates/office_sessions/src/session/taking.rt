//! How what a counter says is taken, and what has come is handed on.
ghost use Rattle.std.specs.Prelude.{◌≡◌, [], ◌∷◌, ◌++◌, false, IsTrue, IsSomeAnd, Some, None};
ghost use Rattle.rtrb.specs.Ring.{sent};
ghost use Rattle.text_grammar.specs.declared.requests.Request.TheVariants.{Close};
ghost use Rattle.office_sessions.specs.declared.messages.Message.TheVariants.{Asked, Ended};
ghost use Rattle.office_sessions.specs.Conversation.{is_answer, IsResponseTo};
ghost use Rattle.office_sessions.specs.Replies.{IsToldBy};
ghost use Rattle.office_sessions.specs.Session.{HasPlace, OnlyTells, KeepsLooking, StaysAt};

use crate::messages::Message;
use crate::replies::OfficeLife;
use crate::responses::Response;
use crate::scheduler::Scheduler;
use crate::session::{CAPACITY, Session};
use crate::status::Clients;
use std::sync::Wait;
use text_grammar::Request;

impl<L: OfficeLife> Session<L> {
    /// Hands on the answers that have come, and takes what the counter has said, as far as there is
    /// room.
    pub(crate) fn attend<R: Wait, C: Clients>(
        &mut self,
        rt: &R,
        scheduler: &Scheduler<L>,
        clients: &mut C,
    )
        ensures { StaysAt self.old self.new }
    {
        self.collect();
        self.take_messages(rt, scheduler, clients);
    }

    // Hands on the answers that have come.
    fn collect(&mut self)
        ensures { StaysAt self.old self.new }
    {
        for _ in 0..CAPACITY {
            let Some(answer) = self.postings.collect() else {
                return;
            };
            let response = Response::from(answer);
            self.responses.push_reserved(response);
            self.recent.note(response);
            self.wakers.note_given();
        }
    }

    // Takes what the counter has said, one message after another.
    fn take_messages<R: Wait, C: Clients>(
        &mut self,
        rt: &R,
        scheduler: &Scheduler<L>,
        clients: &mut C,
    )
        ensures { StaysAt self.old self.new }
    {
        for _ in 0..CAPACITY {
            if !self.take_next(rt, scheduler, clients) {
                return;
            }
        }
    }

    // Takes the next message, if there is one that can be handled now; false if not.
    fn take_next<R: Wait, C: Clients>(
        &mut self,
        rt: &R,
        scheduler: &Scheduler<L>,
        clients: &mut C,
    ) -> bool
        ensures { StaysAt self.old self.new }
    {
        if self.responses.slots() <= self.postings.unanswered {
            return false;
        }
        let Some(message) = self.next_message(scheduler) else {
            return false;
        };
        self.handle(rt, scheduler, clients, message)
    }

    // What is handled next. Of an office that closes nothing more is taken.
    fn next_message(&mut self, scheduler: &Scheduler<L>) -> Option<Message>
        ensures next { result ≡ self.new.next }
        ensures own { self.new.own ≡ self.old.own }
        ensures feed { self.new.postings.feed ≡ self.old.postings.feed }
        ensures room { self.new.responses ≡ self.old.responses }
        ensures unanswered { self.new.postings.unanswered ≡ self.old.postings.unanswered }
    {
        if self.next.is_none() && !scheduler.is_closing() {
            self.pull();
            self.wakers.reader.unpark();
        }
        self.next
    }

    // The next message that the counter's reader has handed on, if there is one.
    fn pull(&mut self)
        requires none { self.old.next ≡ None }
        ensures own { self.new.own ≡ self.old.own }
        ensures feed { self.new.postings.feed ≡ self.old.postings.feed }
        ensures room { self.new.responses ≡ self.old.responses }
        ensures unanswered { self.new.postings.unanswered ≡ self.old.postings.unanswered }
    {
        match self.messages.pop() {
            Ok(message) => self.next = Some(message),
            Err(_) => {}
        }
    }

    // Handles a message, for whose response there is a place; false if that can't be done yet.
    fn handle<R: Wait, C: Clients>(
        &mut self,
        rt: &R,
        scheduler: &Scheduler<L>,
        clients: &mut C,
        message: Message,
    ) -> bool
        requires place { HasPlace self.old }
        requires next { self.old.next ≡ Some message }
        ensures stands { StaysAt self.old self.new }
        ensures handled { IsTrue result → self.new.next ≡ None }
    {
        match message {
            Message::Asked(Request::Post(entry)) => self.post(rt, scheduler, entry),
            // all else is answered behind what was asked before it
            _ if self.postings.unanswered > 0 => false,
            Message::Asked(Request::Balance { account }) => {
                self.tell_balance(rt, scheduler, account)
            }
            Message::Asked(Request::Find { reference }) => {
                self.tell_found(rt, scheduler, reference)
            }
            Message::Asked(Request::Last) => self.tell_last(rt, scheduler),
            Message::Asked(Request::First { reference }) => {
                self.begin_with(rt, scheduler, reference)
            }
            Message::Asked(Request::Hello { number }) => {
                self.respond(Response::Hello { number })
            }
            Message::Asked(Request::Copy) => self.tell_copied(rt, scheduler),
            Message::Asked(Request::Archive) => self.tell_archived(rt, scheduler),
            Message::Asked(Request::Status) => self.tell_status(rt, scheduler, clients),
            Message::Asked(Request::Name) => self.respond(Response::Name),
            Message::Asked(Request::Help) => self.respond(Response::Help),
            Message::Asked(Request::Close) => self.close(scheduler),
            Message::Wrong(wrong) => self.respond(Response::Wrong(wrong)),
            Message::Ended => self.end_input(scheduler),
        }
    }

    // Where nothing comes any more the office closes, if its counter is a terminal.
    fn end_input(&mut self, scheduler: &Scheduler<L>) -> bool
        requires behind { self.old.postings.unanswered ≡ 0 }
        requires next { self.old.next ≡ Some Ended }
        ensures stays { OnlyTells self.old self.new }
        ensures handled { self.new.next ≡ None }
    {
        if self.closes_at_end {
            scheduler.close();
        }
        self.next = None;
        true
    }

    // Closes the office, as the counter asks, and tells it so.
    fn close(&mut self, scheduler: &Scheduler<L>) -> bool
        requires place { HasPlace self.old }
        requires behind { self.old.postings.unanswered ≡ 0 }
        requires next { self.old.next ≡ Some (Asked Close) }
        ensures stays { OnlyTells self.old self.new }
        ensures handled { self.new.next ≡ None }
    {
        scheduler.close();
        self.is_told_closing = true;
        self.respond(Response::Closing)
    }

    // Tells the counter the response to the message that is handled, for which there is a place;
    // with it that is answered.
    pub(super) fn respond(&mut self, response: Response) -> bool
        requires place { HasPlace self.old }
        requires behind { self.old.postings.unanswered ≡ 0 }
        requires other { is_answer response ≡ false }
        requires right { IsSomeAnd self.old.next (λ message. IsResponseTo message response) }
        requires by { ∥ IsToldBy self.old.own response self.old.replies ∥₁ }
        ensures done { IsTrue result }
        ensures handled { self.new.next ≡ None }
        ensures stays { OnlyTells self.old self.new }
        ensures keeps { KeepsLooking self.old self.new }
        ensures heard { self.new.replies ≡ self.old.replies }
        ensures told { sent self.new.responses ≡ sent self.old.responses ++ response ∷ [] }
    {
        self.next = None;
        self.responses.push_reserved(response);
        self.recent.note(response);
        self.wakers.note_given();
        true
    }
}
