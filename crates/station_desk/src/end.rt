//! How a station's run ends.
use std::fmt;
use turn_clerk::TurnRefusal;

/// How the run of a station ended.
#[derive(Clone, Copy, Debug, PartialEq, Eq)]
pub enum End {
    /// No run was started yet.
    NotStarted,
    /// The history has as many turns as were wanted.
    Reached,
    /// Another station ended otherwise than as Reached.
    Stopped,
    /// It had no privilege in as many tries in a row as it was given.
    Tries,
    /// It was sent home.
    Closed,
    /// Its last turn was refused for this reason.
    Refused(TurnRefusal),
}

/// The name of an end, as the output of a script has it: its variant's, or that of the refusal.
#[derive(Clone, Copy, Debug)]
pub struct EndName(pub End);

impl fmt::Display for EndName {
    fn fmt<W: fmt::Write>(&self, f: &mut fmt::Formatter<W>) -> fmt::Result {
        match self.0 {
            End::Refused(refusal) => write!(f, "{refusal:?}"),
            end => write!(f, "{end:?}"),
        }
    }
}
