//! How a turn is told.
use std::fmt::{Debug, Display};
use test_words::Told;
use turn_clerk::Turn;

/// Adds a line with the turn that a call took, or with its refusal.
pub fn tell_taken<E: Debug + Display>(taken: &Result<Turn, E>, told: &mut Told) {
    match taken {
        Ok(turn) => tell_turn(turn, told),
        Err(refusal) => told.refused(refusal),
    }
}

/// Adds a line with a turn: its place, its station, the rule, the number of its batch, and what
/// became of each entry.
pub fn tell_turn(turn: &Turn, told: &mut Told) {
    let (index, station, rule) = (turn.index, turn.station, turn.rule);
    told.add(format_args!("turn {index} station {station} {rule}"));
    match turn.posted {
        Some(number) => told.add(format_args!(" posted {number}")),
        None => told.add(" empty"),
    }
    told.verdicts(&turn.verdicts);
}
