//! The words of a line, which stands alone, without a device.
use crate::said::Said;
use crate::scene::{Hand, Scene};
use crate::told::Told;
use four_state::{Line, LineRefusal, Rule};
use sweep_auditor::{Move, audit};
use text_grammar::Bits;

/// The line that three words spell: how many stations, their bits x and their bits up. What is
/// wrong is told.
pub fn read_line(said: &mut Said<'_>, told: &mut Told) -> Option<Line> {
    let Some((stations, x, up)) = spelled(said) else {
        told.line("wrong words");
        return None;
    };
    match line_of(stations, x, up) {
        Ok(line) => Some(line),
        Err(refusal) => {
            told.refused(&refusal);
            None
        }
    }
}

fn spelled<'a>(said: &mut Said<'a>) -> Option<(u64, Bits<'a>, Bits<'a>)> {
    let stations = said.number();
    let x = Bits::read(said.word()?.as_bytes())?;
    let up = Bits::read(said.word()?.as_bytes())?;
    Some((stations, x, up))
}

fn line_of(stations: u64, x: Bits<'_>, up: Bits<'_>) -> Result<Line, LineRefusal> {
    let (x, up) = (x.kept(), up.kept());
    Line::from_bits(stations, x.as_slice(), up.as_slice())
}

/// `line STATIONS XBITS UPBITS`: a line in the place of what was in hand.
pub fn new_line(said: &mut Said<'_>, told: &mut Told) -> Scene {
    match read_line(said, told) {
        Some(line) => Scene::Line(line),
        None => Scene::Nothing,
    }
}

/// A word of a line; `line ..` puts another one in its place.
pub fn run(
    mut line: Line,
    hand: &mut Hand,
    name: &str,
    said: &mut Said<'_>,
    told: &mut Told,
) -> Scene {
    if name == "line" {
        return new_line(said, told);
    }
    ask(&mut line, hand, name, said, told);
    Scene::Line(line)
}

fn ask(line: &mut Line, hand: &mut Hand, name: &str, said: &mut Said<'_>, told: &mut Told) {
    match name {
        "show" => told.line_of(line),
        "legitimate" => told.value(&line.is_legitimate()),
        "words" => told.hexadecimal(line.words()),
        "station" => show_station(line, said, told),
        "enabled" => is_enabled(line, said, told),
        "move" => make_move(line, said, told),
        "audit" => audit_moves(line, hand, said, told),
        _ => told.line("no such word of a line"),
    }
}

// `enabled S RULE`
fn is_enabled(line: &Line, said: &mut Said<'_>, told: &mut Told) {
    let station = said.station();
    match read_rule(said) {
        Some(rule) => told.value(&line.enabled(station, rule)),
        None => told.line("wrong words"),
    }
}

fn read_rule(said: &mut Said<'_>) -> Option<Rule> {
    match said.word().unwrap_or("") {
        "Bottom" => Some(Rule::Bottom),
        "Top" => Some(Rule::Top),
        "Raise" => Some(Rule::Raise),
        "Lower" => Some(Rule::Lower),
        _ => None,
    }
}

// `station S`: its bits x and up, and its privilege.
fn show_station(line: &Line, said: &mut Said<'_>, told: &mut Told) {
    let station = said.station();
    if !said.is_right(told) {
        return;
    }
    if station >= line.stations() {
        told.line("not asked: no such station");
        return;
    }
    told.value(&(line.x(station), line.up(station), line.privilege(station)));
}

// `move S RULE`
fn make_move(line: &mut Line, said: &mut Said<'_>, told: &mut Told) {
    let (station, rule) = (said.station(), read_rule(said));
    match rule {
        Some(rule) if line.enabled(station, rule) => line.make_move(station, rule),
        Some(_) => told.line("not asked: not enabled"),
        None => told.line("wrong words"),
    }
}

// `audit [S RULE]..`
fn audit_moves(line: &Line, hand: &mut Hand, said: &mut Said<'_>, told: &mut Told) {
    let mut moves = Vec::new(hand.alloc);
    for _ in 0..1_000_000 {
        let Some(word) = said.word() else {
            break;
        };
        let station = word.parse::<u8>().unwrap_or(u8::MAX);
        let Some(rule) = read_rule(said) else {
            told.line("wrong words");
            return;
        };
        if moves.push(Move { station, rule }).is_err() {
            told.line("no memory");
        }
    }
    match audit(*line, moves.as_slice()) {
        Ok(audited) => told.audit(&audited),
        Err(refusal) => told.refused(&refusal),
    }
}
