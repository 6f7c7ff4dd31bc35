//! What counters say.
use std::fmt;
use text_grammar::{LineFault, Request};

/// What a counter's reader hands on.
#[derive(Clone, Copy, Debug, PartialEq, Eq)]
pub enum Message {
    /// A line that is a request.
    Asked(Request),
    /// A line that is none.
    Wrong(WrongLine),
    /// Nothing comes any more.
    Ended,
}

/// Why a line is no request.
#[derive(Clone, Copy, Debug, PartialEq, Eq)]
pub enum WrongLine {
    /// It is none of the grammar.
    Fault(LineFault),
    /// It has more than 256 bytes.
    TooLong,
    /// Its client did not say hello since the office began.
    NoHello,
}

impl fmt::Display for WrongLine {
    fn fmt<W: fmt::Write>(&self, f: &mut fmt::Formatter<W>) -> fmt::Result {
        match self {
            WrongLine::Fault(fault) => write!(f, "{fault}"),
            WrongLine::TooLong => f.write_str("line too long"),
            WrongLine::NoHello => f.write_str("no hello"),
        }
    }
}
