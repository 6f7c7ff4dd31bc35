//! How a conversation with a counter ends.
ghost use Rattle.std.specs.Prelude.{◌≡◌, ◌⊎◌, ◌<◌, length, All, IfOk};
ghost use Rattle.rtrb.specs.Ring.{sent};
ghost use Rattle.office_sessions.specs.Conversation.{pending, IsToldNoMore};
ghost use Rattle.office_sessions.specs.Over.{IsOver};
ghost use Rattle.office_sessions.specs.Right.{IsRight};

use crate::conversation::{Conversation, listed};
use crate::replies::OfficeLife;
use crate::session::Session;
use station_desk::Feed;
use std::alloc::{AllocError, Global};
use std::time::Clock;

impl<L: OfficeLife> Session<L> {
    /// Ends the conversation: what the counter asks to post by now is listed, other questions are
    /// refused, and it is told that the office closes. Nothing is answered behind an entry that
    /// isn't.
    ///
    /// # Errors
    /// Out of memory.
    pub(crate) fn end<C: Clock>(
        self,
        clock: &C,
        alloc: Global,
    ) -> Result<(Feed, Conversation), AllocError>
        ensures feed { IfOk result (λ both. both.0 ≡ self.postings.feed) }
        ensures own { IfOk result (λ both. both.1.own ≡ self.own) }
        ensures right { All (IsRight L.reports) self.replies }
        ensures over { IfOk result (λ both. IsOver both.0 self.replies both.1) }
        ensures silent { (0 < self.postings.unanswered) ⊎ (0 < length (pending self.next))
            → IfOk result (λ both. IsToldNoMore (sent self.responses) both.1.told) }
    {
        let Session {
            own,
            next,
            messages,
            responses,
            replies,
            postings,
            wakers,
            recent,
            is_told_closing,
            ..
        } = self;
        replies.are_right();
        let unheard = listed(alloc, next)?;
        let mut conversation = Conversation::new(
            own,
            messages,
            responses,
            unheard,
            recent,
            wakers,
            is_told_closing || postings.unanswered > 0,
            is_told_closing,
        );
        conversation.refuse_next(next);
        conversation.take_late(clock)?;
        conversation.tell_closing();
        Ok((postings.into_feed(), conversation))
    }
}
