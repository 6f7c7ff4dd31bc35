//! Moves, and what an audit of them tells.

use four_state::{Line, Rule};
use thiserror::Error;

/// A station and the rule by which it moves.
#[derive(Clone, Copy, Debug, PartialEq, Eq, Hash)]
pub struct Move {
    /// The station's number; the bottom station has number 0.
    pub station: u8,
    /// The rule by which it moves.
    pub rule: Rule,
}

/// What the audit of a run tells.
#[derive(Clone, Copy, Debug, PartialEq, Eq)]
pub struct Audit {
    /// The least index of a legitimate configuration; the start has index 0.
    pub first_legitimate: Option<usize>,
    /// The line after the last move.
    pub last: Line,
}

/// Why a list of moves is no run.
#[derive(Clone, Copy, Debug, PartialEq, Eq, Error)]
pub enum AuditRefusal {
    /// The first move that can't be made: at its place the station has no privilege by that rule.
    /// Moves are counted from 0.
    #[error("the station of move {index} may not move by its rule there")]
    NotEnabled { index: usize },
}
