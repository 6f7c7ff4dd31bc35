//! What became of every request, once a feed and its desk are back in one hand.
ghost use Rattle.std.specs.Prelude.{◌≡◌, ◌+◌, ◌≤◌, ◌<◌, ◌^◌, [], ◌++◌, length, take, vec_len};
ghost use Rattle.std.specs.Prelude.{vec_capacity, IfOk, IfErr};
ghost use Rattle.rtrb.specs.Ring.{known_items};
ghost use Rattle.station_desk.specs.Messages.{asks_of, AreNumberedFrom};
ghost use Rattle.station_desk.specs.Rings.{AreTogether};

use crate::desk_end::Desk;
use crate::feed::Feed;
use crate::messages::{Answer, Ask};
use rtrb::Consumer;
use std::alloc::{AllocError, Global};
use turn_ledger::BATCH_LIMIT;

/// The requests of a feed and what its desk made of them.
#[derive(Debug, Drop)]
pub struct Reconciled {
    /// How many requests were submitted.
    pub submitted: u64,
    /// How many answers were collected.
    pub collected: u64,
    /// The answers that were given and not collected, in order.
    pub answers: Vec<Answer>,
    /// The requests without an answer, in order: those that the desk held, and then those in the
    /// ring.
    pub unanswered: Vec<Ask>,
}

/// Accounts for every request of a feed, with the desk that was made with it.
///
/// What was submitted is, in order, the requests of the collected answers, those of `answers`, and
/// `unanswered`. The collected answers are the first of those that were given, and `answers` are
/// the others.
///
/// # Errors
/// Out of memory, both come back unchanged.
pub fn reconcile(
    alloc: Global,
    feed: Feed,
    desk: Desk,
) -> Result<Reconciled, (Feed, Desk, AllocError)>
    requires { AreTogether feed desk }
    ensures submitted { IfOk result (λ all. all.submitted ≡ length feed.asked) }
    ensures collected { IfOk result (λ all. all.collected ≡ length feed.collected) }
    ensures in_order { IfOk result (λ all.
        feed.asked ≡ asks_of feed.collected ++ asks_of all.answers.items ++ all.unanswered.items) }
    ensures given { IfOk result (λ all. desk.given ≡ feed.collected ++ all.answers.items) }
    ensures held_first { IfOk result (λ all.
        take (length desk.held) all.unanswered.items ≡ desk.held) }
    ensures tickets { AreNumberedFrom 0 feed.asked }
    ensures back { IfErr result (λ back. (back.0 ≡ feed) × (back.1 ≡ desk)) }
{
    let lists = places(alloc, feed.answers.capacity(), desk.asks.capacity());
    let Ok((mut answers, mut unanswered)) = lists else {
        return Err((feed, desk, AllocError));
    };
    let Feed {
        asks: mut submitted,
        answers: mut collected,
        next,
    } = feed;
    let Desk {
        asks: mut gathered,
        answers: mut given,
        held,
    } = desk;
    collected.slots_beside(&mut given);
    gathered.slots_beside(&mut submitted);
    drain(&mut collected, &mut answers);
    copy(held.asks(), &mut unanswered);
    drain(&mut gathered, &mut unanswered);
    Ok(Reconciled {
        submitted: next,
        collected: next - answers.len() as u64 - unanswered.len() as u64,
        answers,
        unanswered,
    })
}

// Places for all that a ring of answers, and for all that a desk and a ring of requests can hold.
fn places(alloc: Global, answers: usize, asks: usize) -> Result<(Vec<Answer>, Vec<Ask>), AllocError>
    requires { asks < 2 ^ 63 }
    ensures answers { IfOk result (λ lists.
        (lists.0.items ≡ []) × (answers ≤ vec_capacity lists.0)) }
    ensures asks { IfOk result (λ lists.
        (lists.1.items ≡ []) × (asks + BATCH_LIMIT ≤ vec_capacity lists.1)) }
{
    let unanswered = Vec::with_capacity(alloc, asks + BATCH_LIMIT)?;
    Ok((Vec::with_capacity(alloc, answers)?, unanswered))
}

// Adds what is known to be in a ring to a list that has places for it.
fn drain<T: Drop>(from: &mut Consumer<T>, into: &mut Vec<T>)
    requires { vec_len into.old + length (known_items from.old) ≤ vec_capacity into.old }
    ensures { into.new.items ≡ into.old.items ++ known_items from.old }
{
    for _ in 0..from.cached_slots() {
        into.push_reserved(from.pop_known());
    }
}

// Adds requests to a list that has places for them.
fn copy(asks: &[Ask], into: &mut Vec<Ask>)
    requires { vec_len into.old + length asks.now ≤ vec_capacity into.old }
    ensures items { into.new.items ≡ into.old.items ++ asks.now }
    ensures places { vec_capacity into.new ≡ vec_capacity into.old }
{
    for ask in asks {
        into.push_reserved(*ask);
    }
}
