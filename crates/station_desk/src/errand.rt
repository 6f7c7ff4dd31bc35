//! What a station is to do.
ghost use Rattle.line_lock.specs.Asked.{NotesAlone};
ghost use Rattle.station_desk.specs.Asked.{IsReportOn};

use line_lock::{BalanceRefusal, Count, Office, OpenedOn, Room, Seat};
use sector_device::Device;
use std::sync::Wait;
use turn_clerk::{FindRefusal, SearchStep, SearchTarget};

/// What a station does next.
#[derive(Clone, Copy, Debug, PartialEq, Eq)]
pub enum Errand {
    /// It gathers, and asks for its turn.
    Turn,
    /// It asks the office this, and reports the answer.
    Ask(Question),
    /// It ends.
    Close,
}

/// What a client wants to know of the ledger.
#[derive(Clone, Copy, Debug, PartialEq, Eq)]
pub enum Question {
    /// What the account of this number holds.
    Balance(u32),
    /// What a step of a search finds, from the record of a number on, and before another.
    Search {
        /// What is looked for.
        sought: SearchTarget,
        /// The number of the first record that is looked at.
        from: u64,
        /// The number behind the last one.
        end: u64,
    },
    /// How far the ledger is, and how much room its live bank has.
    Room,
}

/// What the office answered.
#[derive(Clone, Copy, Debug, PartialEq, Eq)]
pub enum Report {
    /// What the account holds, or why that isn't told.
    Balance(Result<u64, BalanceRefusal>),
    /// What the step tells, or why it wasn't made.
    Searched(Result<SearchStep, FindRefusal>),
    /// How far the ledger is, and how much room its live bank has.
    Room(Room),
}

// What the office answers to a question of the station at this seat.
pub(crate) fn put_question<D: Device, L: Count + OpenedOn, R: Wait>(
    rt: &R,
    office: &Office<D, L>,
    seat: &mut Seat<L>,
    question: Question,
) -> Report
    ensures right { IsReportOn D.state L.device L.line L.begins
        seat.old seat.new question result }
    ensures seat { NotesAlone seat.old seat.new }
{
    match question {
        Question::Balance(account) => Report::Balance(office.balance(rt, seat, account)),
        Question::Search { sought, from, end } => {
            Report::Searched(office.search(rt, seat, sought, from, end))
        }
        Question::Room => Report::Room(office.room(rt)),
    }
}
