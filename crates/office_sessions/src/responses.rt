//! What counters are told.
ghost use Rattle.std.specs.Prelude.{◌≡◌, false, List};
ghost use Rattle.station_desk.specs.declared.errand.Question.{Question};
ghost use Rattle.station_desk.specs.declared.errand.Report.{Report};
ghost use Rattle.text_grammar.specs.declared.requests.Request.TheVariants.{Balance};
ghost use Rattle.office_sessions.specs.declared.messages.Message.TheVariants.{Asked};
ghost use Rattle.office_sessions.specs.Conversation.{is_answer, told_of_balance};
ghost use Rattle.office_sessions.specs.Conversation.{IsResponseTo};
ghost use Rattle.office_sessions.specs.Replies.{CameLast, IsToldBy};
ghost use Rattle.office_sessions.specs.declared.look.OwnPostings.{OwnPostings};
ghost use Rattle.office_sessions.specs.declared.replies.Reply.{Reply};

use crate::look::LookAnswer;
use crate::messages::WrongLine;
use crate::recess::CounterCopyRefusal;
use crate::status::OfficeStatus;
use line_lock::BalanceRefusal;
use station_desk::{Answer, Outcome};
use std::fmt;
use turn_clerk::FindRefusal;
use turn_ledger::{Entry, EntryRefusal};

/// The requests of counters, as `help` tells them.
pub const REQUESTS: &str = "\
deposit A M [R]       M units to account A
withdraw A M [R]      M units from account A
transfer A B M [R]    M units from account A to account B
seal A [R]            account A keeps what it holds for good, and no later entry may name it
balance A             what account A holds, after all that was asked here before
find R                in which batches reference R was posted, and how far back one sees
last                  the greatest reference that was posted at this counter, and its batch
first R               references of this counter begin with R, if none is in sight that isn't below
hello X               the same as an answer, so that a client knows which are its own
copy                  a copy of the ledger in the folder for copies
archive               all batches by now go to the archive
name                  which counter this is, and the number of its ledger
status                how the office stands: its next batch, free slots, turns, clients, how far its archive is
help                  these requests
close                 the office closes
Accounts have numbers from 1 to 1024. R is the entry's reference, a number above all that were used at this counter.
Said again, an entry with a reference is answered as before and not posted twice; without one it is posted again.";

/// What is told of a line.
#[derive(Clone, Copy, Debug, PartialEq, Eq)]
pub enum Response {
    /// The entry of this reference is posted, in the batch of this number.
    Posted {
        number: u64,
        reference: u64,
    },
    /// A rule refused the entry.
    Refused {
        refusal: EntryRefusal,
        reference: u64,
    },
    /// The device failed while the entry was written: the next opening tells whether it stands.
    Undecided {
        reference: u64,
    },
    /// An entry of the looked-for reference was posted in the batch of this number.
    Found {
        number: u64,
        reference: u64,
    },
    /// What an account holds.
    Balance {
        account: u32,
        amount: u64,
    },
    /// Why a balance isn't told.
    NoBalance(BalanceRefusal),
    /// How many batches with an entry of the looked-for reference were found; all from this number
    /// on were looked at.
    FoundInAll {
        count: u64,
        since: u64,
    },
    /// Why a reference wasn't looked for to the end.
    NotFound(FindRefusal),
    /// What became of an entry that wasn't submitted, for the sake of its reference.
    Judged {
        entry: Entry,
        judgement: Judgement,
    },
    /// The counter's posting with the greatest reference.
    Last(LookAnswer),
    /// References of the counter begin with this one.
    First {
        reference: u64,
    },
    /// They can't: it isn't above those that were posted.
    NotFirst {
        reference: u64,
    },
    /// What a client said to be known by.
    Hello {
        number: u64,
    },
    /// All batches below this number are in the archive.
    Archived {
        next: u64,
    },
    /// The office has no archive.
    NoArchive,
    /// The copy has all batches below this number.
    Copied {
        next: u64,
    },
    /// Why there is no copy.
    NoCopy(CounterCopyRefusal),
    /// How the office stands.
    Status(OfficeStatus),
    /// By what the counter is known, which its writer tells.
    Name,
    /// The office closed before the question was answered.
    Closed,
    /// The line is no request.
    Wrong(WrongLine),
    /// The requests that there are.
    Help,
    /// The office closes.
    Closing,
}

/// What becomes of an entry that isn't submitted, since its reference isn't known to be above all
/// that were posted at its counter.
#[derive(Clone, Copy, Debug, PartialEq, Eq)]
pub enum Judgement {
    /// The same entry stands under this reference, in the batch of this number.
    Posted(u64),
    /// Under its reference another entry stands, or none, and one above it was posted; or it is too
    /// far above all that were posted, or below the first one that the client said.
    Reference,
    /// What stands under its reference isn't in sight, from the batch of this number on: the entry
    /// may stand before it.
    Unknown(u64),
    /// The ledger wasn't looked at to its end.
    NotSeen(FindRefusal),
}

impl Response {
    /// What is told of an account.
    pub(crate) fn of_balance(account: u32, answer: Result<u64, BalanceRefusal>) -> Response
        ensures told { result ≡ told_of_balance account answer }
        ensures right { IsResponseTo (Asked (Balance account)) result }
        ensures other { is_answer result ≡ false }
        ensures by { (own : OwnPostings) (heard : List Reply)
            → CameLast (Reply.Report (Question.Balance account) (Report.Balance answer)) heard
            → IsToldBy own result heard }
    {
        match answer {
            Ok(amount) => Response::Balance { account, amount },
            Err(refusal) => Response::NoBalance(refusal),
        }
    }

    /// Whether it tells of an entry that was submitted.
    pub fn is_answer(&self) -> bool
        ensures { result ≡ is_answer self.now }
    {
        matches!(
            self,
            Response::Posted { .. } | Response::Refused { .. } | Response::Undecided { .. }
        )
    }
}

impl From<Answer> for Response {
    ghost use Rattle.office_sessions.specs.Conversation.{response_of};

    ghost from_gives = { λ answer response. response ≡ response_of answer };

    fn from(answer: Answer) -> Response {
        let reference = answer.entry.reference();
        match answer.outcome {
            Outcome::Posted(number) => Response::Posted { number, reference },
            Outcome::Refused(refusal) => Response::Refused { refusal, reference },
            Outcome::Undecided => Response::Undecided { reference },
        }
    }
}

/// Its line, or lines, without the end of the last.
impl fmt::Display for Response {
    fn fmt<W: fmt::Write>(&self, f: &mut fmt::Formatter<W>) -> fmt::Result {
        match self {
            Response::Posted { number, reference } | Response::Found { number, reference } => {
                write!(f, "posted {number} {reference}")
            }
            Response::Refused { refusal, reference } => {
                write!(f, "refused {refusal:?} {reference}")
            }
            Response::Undecided { reference } => write!(f, "undecided {reference}"),
            Response::Balance { account, amount } => write!(f, "balance {account} {amount}"),
            Response::NoBalance(refusal) => write!(f, "refused {refusal:?}"),
            Response::FoundInAll { count, since } => write!(f, "found {count} since {since}"),
            Response::NotFound(refusal) => write!(f, "refused {refusal:?}"),
            Response::Judged { entry, judgement } => {
                write!(f, "{judgement} {}", entry.reference())
            }
            Response::Last(seen) => write!(f, "last {seen}"),
            Response::First { reference } => write!(f, "first {reference}"),
            Response::NotFirst { reference } => write!(f, "refused Reference {reference}"),
            Response::Hello { number } => write!(f, "hello {number}"),
            Response::Archived { next } => write!(f, "archived {next}"),
            Response::NoArchive => f.write_str("refused NoArchive"),
            Response::Copied { next } => write!(f, "copied {next}"),
            Response::NoCopy(refusal) => write!(f, "refused {refusal:?}"),
            Response::Status(status) => write!(f, "{status}"),
            Response::Name => f.write_str("name"),
            Response::Closed => f.write_str("refused Closed"),
            Response::Wrong(wrong) => write!(f, "wrong {wrong}"),
            Response::Help => f.write_str(REQUESTS),
            Response::Closing => f.write_str("closing"),
        }
    }
}

impl fmt::Display for Judgement {
    fn fmt<W: fmt::Write>(&self, f: &mut fmt::Formatter<W>) -> fmt::Result {
        match self {
            Judgement::Posted(number) => write!(f, "posted {number}"),
            Judgement::Reference => f.write_str("refused Reference"),
            Judgement::Unknown(since) => write!(f, "refused Unknown since {since}"),
            Judgement::NotSeen(refusal) => write!(f, "refused {refusal:?}"),
        }
    }
}
