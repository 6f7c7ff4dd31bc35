//! An office in memory that stays open for one counter, whose lines are written out and whose
//! answers come by a pipe.
use crate::clerks::opened;
use crate::scenes::{line, needed, needed_of};
use gate_journal::Journal;
use office_day::{End, Line};
use office_sessions::{
    ArchiveState, Clients, ClosedOffice, Counter, CounterCopyRefusal, CounterKind, Identity,
    Keeper, LookAnswer, keep_open,
};
use sector_device::{Device, MemoryDevice};
use std::alloc::Global;
use std::fs::Files;
use std::io;
use std::io::{PipeReader, PipeWriter, Read};
use std::process::Abort;
use std::sync::Wait;
use std::thread::Threads;
use std::time::Clock;

// Who keeps no archive, and makes one copy.
#[derive(Drop)]
struct Sample {
    copies: u64,
}

impl Keeper for Sample {
    ghost use Rattle.office_sessions.specs.declared.recess.ArchiveState.TheVariants.{NoArchive};

    ghost so_far = { λ _. NoArchive };

    fn keep<D: Device>(&mut self, journal: Journal<D>) -> (D, ArchiveState) {
        (journal.into_device(), ArchiveState::NoArchive)
    }

    fn copy<D: Device>(&mut self, device: D) -> (D, Result<u64, CounterCopyRefusal>) {
        self.copies = self.copies.saturating_add(1);
        if self.copies == 1 {
            return (device, Ok(7));
        }
        (device, Err(CounterCopyRefusal::Occupied))
    }

    fn kept(&self) -> ArchiveState {
        ArchiveState::NoArchive
    }

    fn last(&mut self, _station: u8) -> Option<LookAnswer> {
        None
    }
}

// Who sees a client at each other counter of three.
#[derive(Drop)]
struct Two;

impl Clients for Two {
    fn others(&mut self, _station: u8) -> u64 {
        2
    }
}

const REQUESTS: &[u8] = b"\
status
name
last
deposit 1 500 7
balance 1
withdraw 1 600

# a comment
deposit 1 500 7
withdraw 1 500 7
deposit 1 500 6
balance 1
transfer 1 2 200
balance 2
balance 2000
find 7
find 8
archive
copy
copy
copy good
hello 18446744073709551615
frob
deposit 1
withdraw 1 600 8
seal 2 8
balance 2
deposit 2 1
last
first 8
first 10
seal 1 9
last
close
deposit 1 1
";

const RESPONSES: &[u8] = b"\
office next 0 free 4 turns 0 clients 2 archived none
name north 42
last none
posted 0 7
balance 1 500
refused Short 0
posted 0 7
refused Reference 7
refused Reference 6
balance 1 500
posted 1 0
balance 2 200
refused NoAccount
posted 0 7
found 1 since 0
found 0 since 0
refused NoArchive
copied 7
refused Occupied
wrong wrong number of words
hello 18446744073709551615
wrong unknown command
wrong wrong number of words
refused Short 8
posted 2 8
balance 2 200
refused Sealed 0
last 8 2
refused Reference 8
first 10
refused Reference 9
last 8 2
closing
";

// The one counter, at station 0. Its answers come by this pipe.
fn north(
    rt: &impl Abort,
    alloc: Global,
    output: PipeWriter,
) -> Vec<Counter<&'static [u8], PipeWriter>> {
    let name = needed(rt, "north".to_owned(alloc));
    let counter = Counter {
        station: 0,
        identity: Identity { name, ledger: 42 },
        input: REQUESTS,
        output,
        kind: CounterKind::Pipes,
        awaits_hello: false,
    };
    needed(rt, vec![in alloc; counter])
}

// An office of these stations with that counter, which is closed and opened again after so many
// turns, and whether it is over then.
fn kept<R: Files + Threads + Wait + Clock + Abort + Sync + Send + Clone + Drop + 'static>(
    rt: &R,
    alloc: Global,
    line: Line,
    moves: u64,
    output: PipeWriter,
) -> bool {
    let counters = north(rt, alloc, output);
    let clerk = opened(rt, alloc, line);
    let kept = keep_open(
        rt,
        alloc,
        clerk,
        counters,
        Two,
        0,
        moves,
        Sample { copies: 0 },
    );
    let (closed, _) = needed_of(rt, kept);
    is_over(&closed, line.stations() as usize, moves)
}

// Whether the counter is answered in such an office.
fn is_answered<R: Files + Threads + Wait + Clock + Abort + Sync + Send + Clone + Drop + 'static>(
    rt: &R,
    alloc: Global,
    line: Line,
    moves: u64,
) -> bool {
    let (mut answers, output) = needed(rt, io::pipe(rt));
    kept(rt, alloc, line, moves, output) && needed(rt, are_told(&mut answers, RESPONSES))
}

// Whether these are the next bytes of the answers.
fn are_told(answers: &mut PipeReader, wanted: &[u8]) -> io::Result<bool> {
    for byte in wanted {
        let mut told = [0];
        answers.read_exact(&mut told)?;
        if told[0] != *byte {
            return Ok(false);
        }
    }
    Ok(true)
}

// The office was closed once its stations had taken all turns, or were sent home.
fn is_over(closed: &ClosedOffice<MemoryDevice>, stations: usize, moves: u64) -> bool {
    for station in &closed.stations {
        let is_over = station.end == End::Closed || moves == 2 && station.end == End::Reached;
        if !is_over || !station.unanswered.is_empty() {
            return false;
        }
    }
    closed.stations.len() == stations
        && closed.clerk.history().len() as u64 <= moves
        && closed.turns >= 5
        && closed.clerk.ledger().balance(1) == Some(300)
}

// In one span, and in an office that is closed and opened again after each second turn.
#[test]
fn a_counter_is_answered_in_order(rt: HostRuntime) {
    let alloc = rt.alloc();
    let offices = [
        (line(&rt, [0, 0], [1, 0]), 1_000),
        (line(&rt, [1, 0, 1], [1, 1, 0]), 2),
    ];
    for (line, moves) in offices {
        assert!(rt; is_answered(&rt, alloc, line, moves));
    }
}
