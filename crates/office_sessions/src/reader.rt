//! The thread that reads what a counter says.
ghost use Rattle.std.specs.Prelude.{◌≡◌, ◌↔◌, ℕ, List, [], ◌∷◌, ◌++◌, true, Some, None};
ghost use Rattle.rtrb.specs.Ring.{sent};
ghost use Rattle.text_grammar.specs.declared.cutting.Cut.TheVariants.{Line, Nothing};
ghost use Rattle.text_grammar.specs.Requests.{SpellsRequest};
ghost use Rattle.text_grammar.specs.Script.{words_of};
ghost use Rattle.office_sessions.specs.Reading.{Says, HandsOn, IsHello};

use crate::messages::{Message, WrongLine};
use crate::replies::OfficeLife;
use crate::scheduler::Scheduler;
use crate::wakers::Wakers;
use rtrb::Producer;
use std::io::{ErrorKind, Read};
use std::sync::Wait;
use text_grammar::{Cut, LineCutter, Request, read_request};

/// How many bytes are read at once.
const CHUNK: usize = 4_096;

/// What the line that is read begins with.
#[derive(Clone, Copy, PartialEq, Eq)]
enum LineStart {
    /// Nothing but blanks yet.
    Blank,
    Comment,
    Word,
}

impl LineStart {
    // With one byte more.
    fn and(self, byte: u8) -> LineStart {
        match (self, byte) {
            (LineStart::Blank, b' ') => LineStart::Blank,
            (LineStart::Blank, b'#') => LineStart::Comment,
            (LineStart::Blank, _) => LineStart::Word,
            (LineStart::Comment | LineStart::Word, _) => self,
        }
    }
}

/// What reads a counter.
#[derive(Drop)]
pub(crate) struct Reader<I: Read> {
    input: I,
    cutter: LineCutter,
    beginning: LineStart,
    // Whether requests are dropped until the client says hello.
    awaits_hello: bool,
    messages: Producer<Message>,
}

impl<I: Read + Drop> Reader<I> {
    /// Before the first line.
    pub(crate) fn new(
        input: I,
        cutter: LineCutter,
        messages: Producer<Message>,
        awaits_hello: bool,
    ) -> Reader<I> {
        Reader {
            input,
            cutter,
            beginning: LineStart::Blank,
            awaits_hello,
            messages,
        }
    }

    /// Hands on what each line says, until nothing comes any more, or the office's life is over.
    pub(crate) fn read_all<L: OfficeLife, R: Wait>(
        &mut self,
        rt: &R,
        wakers: &Wakers,
        scheduler: &Scheduler<L>,
    ) {
        let mut chunk = [0; CHUNK];
        for _ in rt.forever() {
            wakers.note_handed_on(true);
            if scheduler.is_over() {
                return;
            }
            let read = self.input.read(&mut chunk);
            wakers.note_handed_on(false);
            match read {
                Ok(0) => break,
                Ok(count) => self.take(rt, wakers, scheduler, &chunk[..count]),
                Err(error) if error.kind() == ErrorKind::Interrupted => {}
                Err(_) => break,
            }
        }
        let cut = self.cutter.end();
        self.take_cut(rt, wakers, scheduler, cut);
        self.hand_on(rt, wakers, scheduler, Message::Ended);
        wakers.note_handed_on(true);
    }

    // Takes bytes that were read.
    fn take<L: OfficeLife, R: Wait>(
        &mut self,
        rt: &R,
        wakers: &Wakers,
        scheduler: &Scheduler<L>,
        bytes: &[u8],
    ) {
        for byte in bytes {
            let cut = self.cutter.push(*byte);
            self.take_cut(rt, wakers, scheduler, cut);
            self.beginning = match cut {
                Cut::Nothing => self.beginning.and(*byte),
                Cut::Line | Cut::TooLong => LineStart::Blank,
            };
        }
    }

    // Takes a line, if one has ended.
    fn take_cut<L: OfficeLife, R: Wait>(
        &mut self,
        rt: &R,
        wakers: &Wakers,
        scheduler: &Scheduler<L>,
        cut: Cut,
    )
        ensures line { (line : List ℕ) → cut ≡ Line → self.old.cutter.ended ≡ Some line
            → HandsOn self.old.awaits_hello line (sent self.old.messages) (sent self.new.messages) }
        ensures nothing { cut ≡ Nothing → sent self.new.messages ≡ sent self.old.messages }
    {
        if let Some(message) = self.message(cut) {
            self.hand_on(rt, wakers, scheduler, message);
        }
    }

    // What the line says that has ended; nothing where it has no words, or none has ended.
    fn message(&mut self, cut: Cut) -> Option<Message>
        ensures says { (line : List ℕ) → cut ≡ Line → self.old.cutter.ended ≡ Some line
            → Says self.old.awaits_hello line result }
        ensures nothing { cut ≡ Nothing → result ≡ None }
        ensures messages { self.new.messages ≡ self.old.messages }
    {
        if cut == Cut::Nothing {
            return None;
        }
        if cut == Cut::TooLong {
            let is_comment = self.beginning == LineStart::Comment;
            return (!is_comment).then_some(Message::Wrong(WrongLine::TooLong));
        }
        match read_request(self.cutter.line()) {
            Ok(Some(request)) => Some(self.heard(request)),
            Ok(None) => None,
            Err(fault) => Some(Message::Wrong(WrongLine::Fault(fault))),
        }
    }

    // The request, unless its client did not say hello, and has to.
    fn heard(&mut self, request: Request) -> Message
        ensures says { (line : List ℕ) → SpellsRequest (words_of line) request
            → Says self.old.awaits_hello line (Some result) }
        ensures waits { (self.new.awaits_hello ≡ true)
            ↔ (self.old.awaits_hello ≡ true) × (IsHello request → ⊥) }
        ensures messages { self.new.messages ≡ self.old.messages }
    {
        if matches!(request, Request::Hello { .. }) {
            self.awaits_hello = false;
        }
        if self.awaits_hello {
            return Message::Wrong(WrongLine::NoHello);
        }
        Message::Asked(request)
    }

    // Hands a message to the dispatcher, and waits for a place where there is none.
    fn hand_on<L: OfficeLife, R: Wait>(
        &mut self,
        rt: &R,
        wakers: &Wakers,
        scheduler: &Scheduler<L>,
        message: Message,
    )
        ensures { sent self.new.messages ≡ sent self.old.messages ++ message ∷ [] }
    {
        for _ in rt.forever() {
            if self.messages.push(message).is_ok() {
                scheduler.wake_dispatcher();
                return;
            }
            wakers.reader.park(rt);
        }
    }
}
