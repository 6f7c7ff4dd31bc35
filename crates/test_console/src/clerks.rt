//! The words of a clerk.
ghost use Rattle.std.specs.Prelude.{◌≡◌, IfOk};

use crate::archives::tell_batches;
use crate::console::{Stage, Supply};
use crate::turns::{tell_taken, tell_turn};
use four_state::Line;
use journal_recovery::OpenRefusal;
use office_sessions::Look;
use station_desk::Question;
use std::alloc::Global;
use test_words::{Bench, Said, Told, read_entries, read_line, set_fault};
use turn_clerk::{Clerk, Event, SearchTarget, Turn, TurnRefusal};

/// `clerk STATIONS XBITS UPBITS`: opens a clerk on the device.
pub fn open_clerk(
    device: Bench,
    supply: &mut Supply,
    said: &mut Said<'_>,
    told: &mut Told,
) -> Stage {
    let Some(line) = read_line(said, told) else {
        return Stage::alone(device);
    };
    match clerk_on(supply.hand.alloc, device, line) {
        Ok(clerk) => {
            told.ledger(clerk.next(), clerk.ledger());
            Stage::Clerk(clerk)
        }
        Err(refused) => Stage::alone(told.handed_back(refused)),
    }
}

/// A clerk with that line. It has no other clause: whoever opens a clerk would pay for each at each
/// way out.
pub fn clerk_on(
    alloc: Global,
    device: Bench,
    line: Line,
) -> Result<Clerk<Bench>, (Bench, OpenRefusal)>
    ensures line { IfOk result (λ clerk. clerk.line ≡ line) }
{
    Clerk::open(alloc, device, line)
}

/// A word of a clerk, which goes on behind it.
pub fn run(
    clerk: Clerk<Bench>,
    supply: &mut Supply,
    name: &str,
    said: &mut Said<'_>,
    told: &mut Told,
) -> Clerk<Bench> {
    match name {
        "anew" => return begin_anew(clerk, said, told),
        "catch_up" => return lend(clerk, supply, told),
        _ => {}
    }
    let mut clerk = clerk;
    ask(&mut clerk, supply, name, said, told);
    clerk
}

// `anew N X UP`: begins anew on that line.
fn begin_anew(clerk: Clerk<Bench>, said: &mut Said<'_>, told: &mut Told) -> Clerk<Bench> {
    let Some(line) = read_line(said, told) else {
        return clerk;
    };
    match begun_anew(clerk, line) {
        Ok(clerk) => {
            told.ledger(clerk.next(), clerk.ledger());
            clerk
        }
        Err(clerk) => {
            told.line("not begun: it is faulted");
            clerk
        }
    }
}

fn begun_anew(clerk: Clerk<Bench>, line: Line) -> Result<Clerk<Bench>, Clerk<Bench>> {
    clerk.begin_anew(line)
}

// `catch_up`: lends the device to the archive, which adds what it lacks, and tells its batches.
fn lend(clerk: Clerk<Bench>, supply: &mut Supply, told: &mut Told) -> Clerk<Bench> {
    let Some(archive) = &mut supply.archive else {
        told.line("not asked: no archive");
        return clerk;
    };
    let clerk = clerk.lend(archive);
    tell_batches(archive, told);
    clerk
}

// A word of a clerk that stays in hand.
fn ask(
    clerk: &mut Clerk<Bench>,
    supply: &mut Supply,
    name: &str,
    said: &mut Said<'_>,
    told: &mut Told,
) {
    match name {
        "turn" => turn(clerk, supply, said, told),
        "event" => add_event(supply, said, told),
        "run" => run_events(clerk, supply, told),
        "find" => find(clerk, said, told),
        "latest" => latest(clerk, said, told),
        "look" => begin_look(supply, said, told),
        "step" => step(clerk, supply, told),
        "fault" => set_fault(&mut supply.hand, said, told),
        _ => tell(clerk, name, said, told),
    }
}

// A word for what a clerk tells of itself.
fn tell(clerk: &Clerk<Bench>, name: &str, said: &mut Said<'_>, told: &mut Told) {
    match name {
        "ledger" => told.ledger(clerk.next(), clerk.ledger()),
        "line" => told.line_of(&clerk.line()),
        "room" => told.named("slots, free", &(clerk.slots(), clerk.room())),
        "history" => tell_history(clerk, told),
        "moves" => told.value(&clerk.moves()),
        "opening" => opening(clerk, said, told),
        "in_flight" => tell_in_flight(clerk, told),
        "faulted" => told.value(&clerk.is_faulted()),
        "shown" => told.value(clerk),
        _ => told.line("no such word of a clerk"),
    }
}

fn tell_history(clerk: &Clerk<Bench>, told: &mut Told) {
    for turn in clerk.history() {
        tell_turn(turn, told);
    }
}

fn tell_in_flight(clerk: &Clerk<Bench>, told: &mut Told) {
    match clerk.in_flight() {
        Some(batch) => told.named("in flight", &(clerk.in_flight_station(), batch.as_slice())),
        None => told.line("nothing in flight"),
    }
}

// `find REFERENCE FROM END`
fn find(clerk: &mut Clerk<Bench>, said: &mut Said<'_>, told: &mut Told) {
    let (reference, from, end) = (said.number(), said.number(), said.number());
    if said.is_right(told) {
        told.outcome(&clerk.search(SearchTarget::Reference(reference), from, end));
    }
}

// `latest STATION LIMIT FROM`
fn latest(clerk: &mut Clerk<Bench>, said: &mut Said<'_>, told: &mut Told) {
    let (station, limit, from) = (said.station(), said.number(), said.number());
    if said.is_right(told) {
        told.outcome(&clerk.search(SearchTarget::OfStation { station, limit }, from, u64::MAX));
    }
}

// `look STATION LIMIT FROM`: begins a look at a station's postings.
fn begin_look(supply: &mut Supply, said: &mut Said<'_>, told: &mut Told) {
    let (station, limit) = (said.station(), said.number());
    let look = Look::starting_at(said.number());
    if said.is_right(told) {
        supply.look = Some((look, station, limit));
    }
}

// `step`: the next step of the look that was begun.
fn step(clerk: &mut Clerk<Bench>, supply: &mut Supply, told: &mut Told) {
    let Some((look, station, limit)) = &mut supply.look else {
        told.line("not asked: no look");
        return;
    };
    let Question::Search { sought, from, end } = look.question(*station, *limit) else {
        return;
    };
    match look.go_on(clerk.search(sought, from, end)) {
        Some(seen) => told.outcome(&seen),
        None => told.line("goes on"),
    }
}

// `turn STATION [ENTRY]..`
fn turn(clerk: &mut Clerk<Bench>, supply: &mut Supply, said: &mut Said<'_>, told: &mut Told) {
    let station = said.station();
    read_entries(said, &mut supply.hand.entries);
    if !said.is_right(told) {
        return;
    }
    tell_taken(&clerk.turn(station, supply.hand.entries.as_slice()), told);
}

// `event STATION [ENTRY]..`: the next event of a run.
fn add_event(supply: &mut Supply, said: &mut Said<'_>, told: &mut Told) {
    let station = said.station();
    read_entries(said, &mut supply.hand.entries);
    let Ok(entries) = supply.hand.entries.clone() else {
        told.line("no memory");
        return;
    };
    if supply.events.push(Event { station, entries }).is_err() {
        told.line("no memory");
    }
}

// `run`: the events so far, each with its reply.
fn run_events(clerk: &mut Clerk<Bench>, supply: &mut Supply, told: &mut Told) {
    let mut replies = Vec::new(supply.hand.alloc);
    match clerk.run(supply.events.as_slice(), &mut replies) {
        Ok(()) => {
            tell_replies(&replies, told);
            supply.events.clear();
        }
        Err(error) => told.refused(&error),
    }
}

fn tell_replies(replies: &[Result<Turn, TurnRefusal>], told: &mut Told) {
    for reply in replies {
        tell_taken(reply, told);
    }
}

// `opening ACCOUNT`: the line, the number of the next batch, and what the account held when the
// clerk was opened.
fn opening(clerk: &Clerk<Bench>, said: &mut Said<'_>, told: &mut Told) {
    let account = said.small();
    if !said.is_right(told) {
        return;
    }
    told.line_of(&clerk.opening());
    told.named("next", &clerk.opening_next());
    told.named("balance", &clerk.opening_balance(account));
    told.named("sealed", &clerk.opening_sealed(account));
}
