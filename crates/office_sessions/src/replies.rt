//! What comes back to a counter's session from its station, or from a recess.
ghost use Rattle.std.specs.Prelude.{◌≡◌, ◌∷◌, ◌++◌, [], All, IfOk, IfSome, None};
ghost use Rattle.office_sessions.specs.Right.{IsRight};

use crate::recess::WishOutcome;
use rtrb::{Consumer, Producer, Protocol, RingBuffer};
use station_desk::{Question, Report};
use std::alloc::{AllocError, Global};
use std::marker::{Brand, Model, PhantomData};

/// What became of what a session asked for.
#[derive(Clone, Copy)]
pub(crate) enum Reply {
    /// What its station reported on this question.
    Report { question: Question, report: Report },
    /// What came of its wish in a recess.
    Outcome(WishOutcome),
}

/// What a type that names an office's life says of it. For [`Brand`] whoever keeps an office open
/// says it in a proof.
pub(crate) trait OfficeLife {
    ghost use Rattle.station_desk.specs.declared.errand.Question.{Question};
    ghost use Rattle.station_desk.specs.declared.errand.Report.{Report};
    ghost use Rattle.office_sessions.specs.Right.{ReportGoesAhead};

    /// Which report on which question is right.
    ghost reports: { Question → Report → Type 0 };

    /// A search for a reference doesn't fall back, and goes on behind what it found.
    ghost ahead: { (question : Question) → (report : Report) → reports question report
        → ReportGoesAhead question report };
}

// Where no proof says anything no report is right.
impl OfficeLife for Brand {
    ghost reports = { λ _ _. ⊥ };

    ghost ahead = { λ _ _ never. absurd never };
}

/// Each report that goes to a session is right.
pub(crate) struct RightReplies<L> {
    life: PhantomData<L>,
}

impl<L: OfficeLife> Protocol<Reply> for RightReplies<L> {
    ghost use Rattle.office_sessions.specs.Right.{IsRight};

    ghost allows = { λ _ reply. IsRight L.reports reply };
}

/// Where replies go to a session.
pub(crate) type Outbox<L> = Producer<Reply, Global, RightReplies<L>>;

/// Where they come to it. Contracts see those that came, in order.
#[derive(Drop)]
pub(crate) struct Inbox<L: OfficeLife> {
    replies: Consumer<Reply, Global, RightReplies<L>>,
}

impl<L: OfficeLife> Model for Inbox<L> {
    ghost use Rattle.std.specs.Prelude.{List, All};
    ghost use Rattle.rtrb.specs.Ring.{received};
    ghost use Rattle.office_sessions.specs.Right.{IsRight};
    ghost use Rattle.office_sessions.specs.declared.replies.Reply.{Reply};

    ghost Value = { List Reply };

    ghost view = { λ inbox. received inbox.replies };

    ghost invariant = { λ inbox. All (IsRight L.reports) (received inbox.replies) };
}

impl<L: OfficeLife> Inbox<L> {
    /// A ring with so many places, at its two ends.
    pub(crate) fn open(alloc: Global, places: usize) -> Result<(Outbox<L>, Inbox<L>), AllocError>
        ensures { IfOk result (λ both. both.1 ≡ []) }
    {
        let (outbox, replies) = RingBuffer::with_protocol::<Global, RightReplies<L>>(
            alloc, places,
        )?;
        Ok((outbox, Inbox { replies }))
    }

    /// The next reply, if it has come.
    pub(crate) fn take(&mut self) -> Option<Reply>
        ensures came { IfSome result (λ reply. self.new ≡ self.old ++ reply ∷ []) }
        ensures right { IfSome result (IsRight L.reports) }
        ensures none { result ≡ None → self.new ≡ self.old }
    {
        self.replies.pop().ok()
    }

    /// Each report that came is right, as a statement; the body does nothing.
    pub(crate) fn are_right(&self)
        ensures { All (IsRight L.reports) self.now }
    {
        let _ = &self.replies;
    }
}
