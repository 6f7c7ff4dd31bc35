//! Why a line of a script was refused, and how that is printed.
use four_state::LineRefusal;
use gate_journal::FormatRefusal;
use journal_recovery::{OpenName, OpenRefusal};
use line_lock::CloseRefusal;
use std::fmt;
use turn_clerk::TurnRefusal;

/// Why a line of a script was refused. The script goes on.
#[derive(Clone, Copy, Debug)]
pub enum Refusal {
    /// There is no open office.
    NoOffice,
    /// There is an open office.
    OfficeOpen,
    /// `post` names a station that the line lacks.
    NoStation,
    /// The station holds 16 entries.
    HeldFull,
    /// The device was not formatted.
    Format(FormatRefusal),
    /// The bits are no line's.
    Line(LineRefusal),
    /// No ledger was opened.
    Open(OpenRefusal),
    /// No turn was taken.
    Turn(TurnRefusal),
    /// The office of a day was not closed.
    Close(CloseRefusal),
}

/// The name of the refusal: that of the inner one, if there is one, with its numbers behind it.
impl fmt::Display for Refusal {
    fn fmt<W: fmt::Write>(&self, f: &mut fmt::Formatter<W>) -> fmt::Result {
        match self {
            Refusal::NoOffice | Refusal::OfficeOpen | Refusal::NoStation | Refusal::HeldFull => {
                write!(f, "{self:?}")
            }
            Refusal::Format(refusal) => write!(f, "{refusal:?}"),
            Refusal::Line(refusal) => write!(f, "{refusal:?}"),
            Refusal::Open(refusal) => OpenName(*refusal).fmt(f),
            Refusal::Turn(refusal) => write!(f, "{refusal:?}"),
            Refusal::Close(refusal) => write!(f, "{refusal:?}"),
        }
    }
}
