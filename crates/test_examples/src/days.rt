//! A day of two stations that each hold a deposit.
use crate::scenes::{deposit, formatted, line, needed};
use office_day::{Ask, Day, End, HeldEntries, Outcome, StationDay, run_day};
use sector_device::MemoryDevice;
use std::alloc::Global;
use std::panic::Expect;
use std::process::Abort;

// How often a station that isn't privileged tries again, at most.
const TRIES: u64 = 100_000_000;

fn holding(rt: &impl Abort, alloc: Global, amount: u64) -> HeldEntries {
    let mut held = needed(rt, HeldEntries::new(alloc));
    held.keep(deposit(1, amount)).expect(rt, "a place");
    held
}

// The station ended since all turns were taken, and its one request has this answer.
fn is_answered(station: &StationDay, outcome: Outcome) -> bool {
    let [answer] = station.answers.as_slice() else {
        return false;
    };
    (station.end, station.unanswered.len()) == (End::Reached, 0)
        && (answer.ticket, answer.outcome) == (0, outcome)
}

// Each station posted its deposit, and the line was legitimate from its start.
fn is_accounted(day: &Day<MemoryDevice>) -> bool {
    let [bottom, top] = day.stations.as_slice() else {
        return false;
    };
    (day.clerk.history().len(), day.audit.first_legitimate) == (3, Some(0))
        && day.clerk.ledger().balance(1) == Some(11)
        && is_answered(bottom, Outcome::Posted(0))
        && is_answered(top, Outcome::Posted(1))
}

#[test]
fn a_day_accounts_for_each_request(rt: HostRuntime) {
    let alloc = rt.alloc();
    let (device, line) = (formatted(&rt, alloc, 4), line(&rt, [0, 0], [1, 0]));
    let held = [holding(&rt, alloc, 5), holding(&rt, alloc, 6)];
    match run_day(&rt, alloc, device, line, &held, 3, TRIES) {
        Ok(day) => assert!(rt; is_accounted(&day)),
        Err(_) => panic!(rt; "a day"),
    }
}

// A clause says it of sixteen at most.
#[test]
fn of_more_requests_than_a_station_may_hold_the_first_sixteen_are_kept(rt: HostRuntime) {
    let mut held = needed(&rt, HeldEntries::new(rt.alloc()));
    let mut asks = [Ask {
        ticket: 0,
        entry: deposit(1, 1),
    }; 17];
    asks[15].entry = deposit(2, 2);
    held.keep_all(&asks);
    let kept = held.as_slice();
    assert!(rt; (kept.len(), kept.last()) == (16, Some(&deposit(2, 2))));
}
