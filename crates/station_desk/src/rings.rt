//! A feed and a desk, made together.
ghost use Rattle.std.specs.Prelude.{◌≡◌, ◌≤◌, [], IfOk};
ghost use Rattle.station_desk.specs.Rings.{AreTogether};

use crate::desk_end::Desk;
use crate::feed::Feed;
use crate::held::HeldAsks;
use rtrb::RingBuffer;
use std::alloc::{AllocError, Global};

/// A feed and its desk, with a ring of requests and a ring of answers between them, each with room
/// for 1 to 4,096 messages.
///
/// # Errors
/// Out of memory.
pub fn desk(alloc: Global, capacity: usize) -> Result<(Feed, Desk), AllocError>
    requires some { 1 ≤ capacity }
    requires few { capacity ≤ 4096 }
    ensures together { IfOk result (λ ends. AreTogether ends.0 ends.1) }
    ensures feed { IfOk result (λ ends. ends.0 ≡ record ends.0 {
      capacity = capacity;
      asked = [];
      collected = [];
      free = capacity;
      arrived = [];
    }) }
    ensures desk { IfOk result (λ ends. ends.1 ≡ record ends.1 {
      taken = [];
      given = [];
      held = [];
      free = capacity;
      waiting = [];
    }) }
{
    let (asked, gathered) = RingBuffer::new(alloc, capacity)?;
    let (given, collected) = RingBuffer::new(alloc, capacity)?;
    let held = HeldAsks::new(alloc)?;
    Ok((
        Feed::new(asked, collected),
        Desk::new(gathered, given, held),
    ))
}
