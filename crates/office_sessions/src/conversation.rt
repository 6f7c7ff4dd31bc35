//! What was said at a counter, and what it was told.
ghost use Rattle.std.specs.Prelude.{◌≡◌, ◌↔◌, List, [], ◌∷◌, ◌++◌, false, true, IfOk, IsTrue, OnOk};
ghost use Rattle.std.specs.Option.{option_to_list};
ghost use Rattle.station_desk.specs.Rings.{FeedState};
ghost use Rattle.office_sessions.specs.Conversation.{pending, posting_of, IsSilent};
ghost use Rattle.office_sessions.specs.Conversation.{IsToldNoMore};
ghost use Rattle.office_sessions.specs.Exchange.{late_answer};
ghost use Rattle.office_sessions.specs.declared.replies.Reply.{Reply};
ghost use Rattle.office_sessions.specs.Over.{EndsOn, IsEnding, IsOpen, IsOver};

use crate::look::OwnPostings;
use crate::messages::Message;
use crate::recent::Recent;
use crate::responses::Response;
use crate::session::CAPACITY;
use crate::wakers::Wakers;
use rtrb::{Consumer, Producer};
use std::alloc::{AllocError, Global};
use std::collections::vec_deque;
use std::iter::Skip;
use std::marker::Model;
use std::sync::Arc;
use std::thread::sleep;
use std::time::{Clock, Duration};
use text_grammar::Request;
use turn_ledger::Entry;

/// How often it is looked whether a counter's reader has handed on all that it has read, and how
/// many milliseconds lie between two looks.
const LOOKS: u64 = 400;

const PAUSE: u64 = 5;

/// What was said at a counter of an office that closes, and what it was told. Contracts see both,
/// by the ends of the rings whose other ends the counter's threads have; a program sees what came
/// too late, and what the counter wasn't told.
#[derive(Drop)]
pub struct Conversation {
    own: OwnPostings,
    messages: Consumer<Message>,
    responses: Producer<Response>,
    unheard: Vec<Entry>,
    recent: Recent,
    wakers: Arc<Wakers>,
    // Whether no question is answered any more: one was left without an answer, for which the next
    // would be taken.
    is_silent: bool,
    // Whether the counter was told that the office closes, behind which it is told nothing.
    is_told_closing: bool,
}

impl Model for Conversation {
    ghost use Rattle.rtrb.specs.Ring.{sent, received};
    ghost use Rattle.office_sessions.specs.Conversation.{ConversationState};

    ghost Value = { ConversationState };

    ghost view = { λ c. record {
      own = c.own;
      said = received c.messages;
      told = sent c.responses;
      unheard = c.unheard.items;
      is_silent = c.is_silent;
    } };
}

impl Conversation {
    ghost use Rattle.rtrb.specs.Ring.{sent, received};

    /// With these ends of the rings, and these entries that nobody submitted.
    pub(crate) fn new(
        own: OwnPostings,
        messages: Consumer<Message>,
        responses: Producer<Response>,
        unheard: Vec<Entry>,
        recent: Recent,
        wakers: Arc<Wakers>,
        is_silent: bool,
        is_told_closing: bool,
    ) -> Conversation
        ensures { result ≡ record {
          own = own;
          said = received messages;
          told = sent responses;
          unheard = unheard.items;
          is_silent = is_silent;
        } }
    {
        Conversation {
            own,
            messages,
            responses,
            unheard,
            recent,
            wakers,
            is_silent,
            is_told_closing,
        }
    }

    /// Takes what the counter's reader still hands on, until that is all that it has read; but not
    /// for ever. Unless all before it is answered, nothing of it is.
    pub(crate) fn take_late<C: Clock>(&mut self, clock: &C) -> Result<(), AllocError>
        ensures own { OnOk result (self.new.own ≡ self.old.own) }
        ensures ends { OnOk result (EndsOn [] [] self.old self.new) }
        ensures silent { OnOk result (IsSilent self.old → self.new.told ≡ self.old.told) }
    {
        for _ in 0..LOOKS {
            let is_last = self.wakers.has_handed_on();
            self.take_waiting()?;
            if is_last {
                break;
            }
            self.wakers.reader.unpark();
            sleep(clock, Duration::from_millis(PAUSE));
        }
        Ok(())
    }

    // Takes what the reader has handed on.
    fn take_waiting(&mut self) -> Result<(), AllocError>
        ensures own { OnOk result (self.new.own ≡ self.old.own) }
        ensures ends { OnOk result (EndsOn [] [] self.old self.new) }
        ensures silent { OnOk result (IsSilent self.old
            → IsSilent self.new × (self.new.told ≡ self.old.told)) }
    {
        for _ in 0..CAPACITY {
            let Ok(message) = self.messages.pop() else {
                break;
            };
            list(&message, &mut self.unheard)?;
            self.refuse(&message);
        }
        Ok(())
    }

    /// Answers a question that comes too late, if all before it is answered. Where there is no
    /// place for the answer, nothing is answered any more.
    pub(crate) fn refuse(&mut self, message: &Message)
        ensures own { self.new.own ≡ self.old.own }
        ensures ends { EndsOn (message.now ∷ []) [] self.old self.new }
        ensures silent { IsSilent self.old → self.new ≡ self.old }
    {
        if !self.is_open() {
            return;
        }
        if let Some(response) = late_answer(message) {
            self.is_silent = !self.hand_on(response);
        }
    }

    // Whether the counter may be told something more.
    fn is_open(&self) -> bool
        ensures { IsTrue result ↔ IsOpen self.now }
    {
        !self.is_silent && self.unheard.is_empty()
    }

    /// Answers the question that would have come next, if all before it is answered.
    pub(crate) fn refuse_next(&mut self, next: Option<Message>)
        ensures own { self.new.own ≡ self.old.own }
        ensures ends { EndsOn (option_to_list next) [] self.old self.new }
        ensures silent { IsSilent self.old → self.new ≡ self.old }
    {
        if let Some(message) = next {
            self.refuse(&message);
        }
    }

    /// Tells the counter that the office closes.
    pub(crate) fn tell_closing(&mut self)
        ensures own { self.new.own ≡ self.old.own }
        ensures over { (feed : FeedState) → (heard : List Reply) → IsEnding [] feed heard self.old
            → IsOver feed heard self.new }
        ensures told { IsToldNoMore self.old.told self.new.told }
    {
        if !self.is_told_closing {
            self.hand_on(Response::Closing);
        }
        self.is_silent = true;
        self.is_told_closing = true;
    }

    // Hands a response to the counter's writer, if there is a place for it.
    fn hand_on(&mut self, response: Response) -> bool
        ensures own { self.new.own ≡ self.old.own }
        ensures told { IsTrue result
            → self.new ≡ record self.old { told = self.old.told ++ response ∷ [] } }
        ensures untold { result ≡ false → self.new ≡ self.old }
    {
        match self.responses.push(response) {
            Ok(()) => {
                self.recent.note(response);
                self.wakers.note_given();
                true
            }
            Err(_) => false,
        }
    }

    /// The entries that the counter asked to post, and that came too late to be submitted, in
    /// order.
    pub fn unheard(&self) -> &[Entry]
        ensures { result.now ≡ self.now.unheard }
    {
        self.unheard.as_slice()
    }

    /// The last of its responses, in order, that its writer isn't done with by now, since the
    /// stream takes no more.
    pub fn untold(&self) -> Skip<vec_deque::Iter<'_, Response>> {
        self.recent.last(self.wakers.unwritten())
    }
}

// What is answered to a message that comes too late.
fn late_answer(message: &Message) -> Option<Response>
    ensures { result ≡ late_answer message.now }
{
    match message {
        Message::Asked(
            Request::Balance { .. }
            | Request::Find { .. }
            | Request::Last
            | Request::First { .. }
            | Request::Copy
            | Request::Archive
            | Request::Status
            | Request::Name,
        ) => Some(Response::Closed),
        Message::Asked(Request::Hello { number }) => Some(Response::Hello { number: *number }),
        Message::Asked(Request::Help) => Some(Response::Help),
        Message::Wrong(wrong) => Some(Response::Wrong(*wrong)),
        Message::Asked(Request::Post(_) | Request::Close) | Message::Ended => None,
    }
}

/// The entry that the next message asks to post, if it does.
pub(crate) fn listed(alloc: Global, next: Option<Message>) -> Result<Vec<Entry>, AllocError>
    ensures { IfOk result (λ entries. entries.items ≡ pending next) }
{
    let mut entries = Vec::new(alloc);
    if let Some(message) = next {
        list(&message, &mut entries)?;
    }
    Ok(entries)
}

// Lists the entry that a message asks to post, if it does.
fn list(message: &Message, unheard: &mut Vec<Entry>) -> Result<(), AllocError>
    ensures { OnOk result (unheard.new.items ≡ unheard.old.items ++ posting_of message.now) }
{
    if let Message::Asked(Request::Post(entry)) = message {
        unheard.push(*entry)?;
    }
    Ok(())
}
