//! How a live office stands.
ghost use Rattle.std.specs.Prelude.{◌≡◌};
ghost use Rattle.office_sessions.specs.OfficeStatus.{archived_of};

use crate::recess::ArchiveState;
use line_lock::Room;
use std::fmt;

/// How an office stands.
#[derive(Clone, Copy, Debug, PartialEq, Eq)]
pub struct OfficeStatus {
    /// The number of the next batch.
    pub next: u64,
    /// How many slots of the live bank are free.
    pub free: u64,
    /// How many turns were taken since the office opened.
    pub turns: u64,
    /// How many other counters have a client.
    pub clients: u64,
    /// All batches below this number are in the archive, if there is one.
    pub archived: Option<u64>,
}

impl OfficeStatus {
    /// Of an office whose ledger has this room, whose archive is so far, with so many turns taken
    /// and other clients.
    pub(crate) fn new(room: Room, kept: ArchiveState, turns: u64, clients: u64) -> OfficeStatus
        ensures next { result.next ≡ room.next }
        ensures free { result.free ≡ room.free }
        ensures turns { result.turns ≡ turns }
        ensures clients { result.clients ≡ clients }
        ensures archived { result.archived ≡ archived_of kept }
    {
        OfficeStatus {
            next: room.next,
            free: room.free,
            turns,
            clients,
            archived: kept.archived(),
        }
    }
}

/// Its line, without the end.
impl fmt::Display for OfficeStatus {
    fn fmt<W: fmt::Write>(&self, f: &mut fmt::Formatter<W>) -> fmt::Result {
        write!(
            f,
            "office next {} free {} turns {} clients {} archived ",
            self.next, self.free, self.turns, self.clients
        )?;
        match self.archived {
            Some(next) => write!(f, "{next}"),
            None => f.write_str("none"),
        }
    }
}

/// Who sees which counters have clients.
pub trait Clients {
    /// How many counters have a client, but for that of this station.
    fn others(&mut self, station: u8) -> u64;
}
