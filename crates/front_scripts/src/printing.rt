//! What commands print.
use crate::refusals::Refusal;
use crate::script_day::DayReport;
use four_state::Line;
use station_desk::{Answer, EndName, Outcome};
use std::io::Write;
use text_streams::{Output, StreamFault};
use turn_clerk::Turn;
use turn_ledger::Ledger;

/// The line of a refusal.
pub fn print_refusal<W: Write>(
    refusal: Refusal,
    output: &mut Output<'_, W>,
) -> Result<(), StreamFault> {
    output.line(format_args!("refused {refusal}"))
}

/// The lines of a turn: the turn itself, and each of its entries.
pub fn print_turn<W: Write>(turn: &Turn, output: &mut Output<'_, W>) -> Result<(), StreamFault> {
    let Turn {
        index,
        station,
        rule,
        verdicts,
        posted,
        ..
    } = *turn;
    match posted {
        Some(sequence) => {
            output.line(format_args!("turn {index} station {station} {rule} posted {sequence}"))?;
        }
        None => output.line(format_args!("turn {index} station {station} {rule} empty"))?,
    }
    for (place, verdict) in verdicts.iter().enumerate() {
        match verdict {
            Ok(()) => output.line(format_args!("entry {place} ok"))?,
            Err(refusal) => output.line(format_args!("entry {place} {refusal:?}"))?,
        }
    }
    Ok(())
}

/// The lines of a day: its turns, what the audit found, how each station ended, and each answer.
pub fn print_day<W: Write>(
    turns: &[Turn],
    day: &DayReport,
    output: &mut Output<'_, W>,
) -> Result<(), StreamFault> {
    for turn in turns {
        print_turn(turn, output)?;
    }
    let count = turns.len();
    match day.audit.first_legitimate {
        Some(index) => output.line(format_args!("day {count} legitimate at {index}"))?,
        None => output.line(format_args!("day {count} legitimate never"))?,
    }
    for (station, told) in day.stations.iter().enumerate() {
        let end = EndName(told.end);
        output.line(format_args!("station {station} {end}"))?;
    }
    for (station, told) in day.stations.iter().enumerate() {
        print_answers(station, told.answers.as_slice(), output)?;
    }
    Ok(())
}

fn print_answers<W: Write>(
    station: usize,
    answers: &[Answer],
    output: &mut Output<'_, W>,
) -> Result<(), StreamFault> {
    for answer in answers {
        let ticket = answer.ticket;
        match answer.outcome {
            Outcome::Posted(sequence) => {
                output.line(format_args!("answer {station} {ticket} posted {sequence}"))?;
            }
            Outcome::Refused(refusal) => {
                output.line(format_args!("answer {station} {ticket} {refusal:?}"))?;
            }
            Outcome::Undecided => {
                output.line(format_args!("answer {station} {ticket} undecided"))?;
            }
        }
    }
    Ok(())
}

/// The bits of a line, and how many privileges it has.
pub fn print_line<W: Write>(line: Line, output: &mut Output<'_, W>) -> Result<(), StreamFault> {
    let privileges = line.privileges();
    output.line(format_args!("bits {line} privileges {privileges}"))
}

/// Each account that holds something, and what all of them hold together.
pub fn print_balances<W: Write>(
    ledger: &Ledger,
    output: &mut Output<'_, W>,
) -> Result<(), StreamFault> {
    for (account, balance) in ledger.accounts() {
        if balance > 0 {
            output.line(format_args!("account {account} {balance}"))?;
        }
    }
    let total = ledger.total();
    output.line(format_args!("total {total}"))
}
