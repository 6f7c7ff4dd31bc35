//! What each station holds, handed in at the beginning of a day.
ghost use Rattle.std.specs.Prelude.{IfOk, All};
ghost use Rattle.std.specs.List.{AllZip};
ghost use Rattle.station_desk.specs.Rings.{AreTogether};
ghost use Rattle.office_day.specs.HandedIn.{HasHandedIn, IsFresh};

use crate::held_entries::{HELD_LIMIT, HeldEntries};
use station_desk::{Desk, Feed, desk};
use std::alloc::{AllocError, Global};

// A feed in which these entries are submitted, and its desk.
fn hand_in(alloc: Global, held: &HeldEntries) -> Result<(Feed, Desk), AllocError>
    ensures handed_in { IfOk result (λ ends. HasHandedIn held.now ends.0) }
    ensures together { IfOk result (λ ends. AreTogether ends.0 ends.1) }
    ensures fresh { IfOk result (λ ends. IsFresh ends.1) }
{
    let (mut feed, desk) = desk(alloc, HELD_LIMIT)?;
    for entry in held.as_slice() {
        // the ring has as many places as a station may hold
        let _ = feed.submit(*entry);
    }
    Ok((feed, desk))
}

/// For each list of entries a feed in which they are submitted, and its desk.
pub(crate) fn hand_in_all(
    alloc: Global,
    held: &[HeldEntries],
) -> Result<(Vec<Feed>, Vec<Desk>), AllocError>
    ensures handed_in { IfOk result (λ both. AllZip HasHandedIn held.now both.0.items) }
    ensures together { IfOk result (λ both. AllZip AreTogether both.0.items both.1.items) }
    ensures fresh { IfOk result (λ both. All IsFresh both.1.items) }
{
    let mut feeds = Vec::with_capacity(alloc, held.len())?;
    let mut desks = Vec::with_capacity(alloc, held.len())?;
    for entries in held {
        let (feed, desk) = hand_in(alloc, entries)?;
        feeds.push(feed)?;
        desks.push(desk)?;
    }
    Ok((feeds, desks))
}
