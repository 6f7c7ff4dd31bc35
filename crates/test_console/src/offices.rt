//! The words of an office, which are gathered up to `close`: then it is opened, does them, and is
//! closed.
use crate::console::{Stage, Supply};
use crate::turns::{tell_taken, tell_turn};
use four_state::Line;
use line_lock::{Closing, Count, Office, OfficeRefusal, OfficeWork, OpenedOn, Seat, with_office};
use std::alloc::Global;
use std::sync::Wait;
use test_words::{Bench, Said, Told, read_entries, read_line, set_fault};
use turn_clerk::{SearchTarget, TurnRefusal};

/// An office that isn't opened yet, with what is to be done in it, a line for each call.
#[derive(Drop)]
pub struct OfficeScript {
    device: Bench,
    line: Line,
    lines: String,
}

/// `office STATIONS XBITS UPBITS`: an office on the device.
pub fn plan_office(
    device: Bench,
    supply: &mut Supply,
    said: &mut Said<'_>,
    told: &mut Told,
) -> Stage {
    match read_line(said, told) {
        Some(line) => Stage::Office(OfficeScript {
            device,
            line,
            lines: String::new(supply.hand.alloc),
        }),
        None => Stage::alone(device),
    }
}

impl OfficeScript {
    /// Adds a line.
    pub fn add(&mut self, line: &str, told: &mut Told) {
        if writeln!(self.lines, "{line}").is_err() {
            told.line("no memory");
        }
    }
}

/// Opens the office, does what was gathered, and closes it. Its clerk is in hand then.
pub fn play<R: Wait>(rt: &R, planned: OfficeScript, supply: &mut Supply, told: &mut Told) -> Stage {
    let OfficeScript {
        device,
        line,
        lines,
    } = planned;
    let alloc = supply.hand.alloc;
    let work = OfficePlay {
        rt,
        supply,
        told: &mut *told,
        lines: lines.as_str(),
    };
    match worked(alloc, device, line, work) {
        Ok(Closing { clerk, audit }) => {
            told.audit(&audit);
            Stage::Clerk(clerk)
        }
        Err(refused) => Stage::alone(told.handed_back(refused)),
    }
}

fn worked<R: Wait>(
    alloc: Global,
    device: Bench,
    line: Line,
    work: OfficePlay<'_, R>,
) -> Result<Closing<Bench>, (Bench, OfficeRefusal<TurnRefusal>)> {
    let (closing, ()) = with_office(alloc, device, line, work)?;
    Ok(closing)
}

// What is done in an office.
#[derive(Drop)]
struct OfficePlay<'a, R> {
    rt: &'a R,
    supply: &'a mut Supply,
    told: &'a mut Told,
    lines: &'a str,
}

impl<R: Wait> OfficeWork<Bench> for OfficePlay<'_, R> {
    type Answer = ();

    type Failure = TurnRefusal;

    fn work<L: Count + OpenedOn + Send + Sync>(
        self,
        office: &Office<Bench, L>,
        mut seats: Vec<Seat<L>>,
    ) -> Result<(Vec<Seat<L>>, ()), TurnRefusal> {
        let OfficePlay {
            rt,
            supply,
            told,
            lines,
        } = self;
        for line in lines.lines() {
            let mut said = Said::of(line);
            let name = said.word().unwrap_or("");
            if name == "give_up" {
                return Err(TurnRefusal::TooMany);
            }
            if name == "leave" {
                let _ = seats.pop();
            } else {
                at_seat(
                    rt,
                    office,
                    seats.as_mut_slice(),
                    supply,
                    name,
                    &mut said,
                    told,
                );
            }
        }
        Ok((seats, ()))
    }
}

// `fault ..`, `room`, or what the seat of a station is asked for.
fn at_seat<L: Count + OpenedOn, R: Wait>(
    rt: &R,
    office: &Office<Bench, L>,
    seats: &mut [Seat<L>],
    supply: &mut Supply,
    name: &str,
    said: &mut Said<'_>,
    told: &mut Told,
) {
    match name {
        "fault" => return set_fault(&mut supply.hand, said, told),
        "room" => return told.value(&office.room(rt)),
        _ => {}
    }
    match seats.get_mut(said.station() as usize) {
        Some(seat) => ask(rt, office, seat, supply, name, said, told),
        None => told.line("not asked: no such seat"),
    }
}

// What a seat is asked for: `balance STATION ACCOUNT`, `find STATION REFERENCE FROM END`, `latest
// STATION LIMIT FROM`, and what stands below.
fn ask<L: Count + OpenedOn, R: Wait>(
    rt: &R,
    office: &Office<Bench, L>,
    seat: &mut Seat<L>,
    supply: &mut Supply,
    name: &str,
    said: &mut Said<'_>,
    told: &mut Told,
) {
    match name {
        "turn" => turn(rt, office, seat, supply, said, told),
        "within" => turn_within(rt, office, seat, supply, said, told),
        "seat" => show_seat(seat, told),
        "balance" => told.outcome(&office.balance(rt, seat, said.small())),
        "find" => {
            let sought = SearchTarget::Reference(said.number());
            told.outcome(&office.search(rt, seat, sought, said.number(), said.number()));
        }
        "latest" => {
            let (station, limit) = (seat.station(), said.number());
            let sought = SearchTarget::OfStation { station, limit };
            told.outcome(&office.search(rt, seat, sought, said.number(), u64::MAX));
        }
        _ => told.line("no such word of an office"),
    }
}

// `turn STATION [ENTRY]..`
fn turn<L: Count + OpenedOn, R: Wait>(
    rt: &R,
    office: &Office<Bench, L>,
    seat: &mut Seat<L>,
    supply: &mut Supply,
    said: &mut Said<'_>,
    told: &mut Told,
) {
    read_entries(said, &mut supply.hand.entries);
    tell_taken(&office.turn(rt, seat, supply.hand.entries.as_slice()), told);
}

// `within STATION LIMIT [ENTRY]..`
fn turn_within<L: Count + OpenedOn, R: Wait>(
    rt: &R,
    office: &Office<Bench, L>,
    seat: &mut Seat<L>,
    supply: &mut Supply,
    said: &mut Said<'_>,
    told: &mut Told,
) {
    let limit = said.number();
    read_entries(said, &mut supply.hand.entries);
    let taken = office.turn_within(rt, seat, supply.hand.entries.as_slice(), limit);
    tell_taken(&taken, told);
}

// `seat STATION`: how many turns it took, and what it noted.
fn show_seat<L: Count>(seat: &Seat<L>, told: &mut Told) {
    told.named("turns", &seat.turns().len());
    told.named("denied, reached", &(seat.denied(), seat.reached()));
    told.named("told", &seat.told());
    told.named("faulted", &seat.was_faulted());
    for turn in seat.turns() {
        tell_turn(turn, told);
    }
}
