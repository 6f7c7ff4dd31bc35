//! An office that is opened, takes two turns and is closed: what its seats are answered.
use crate::scenes::{deposit, formatted, line, needed, needed_of};
use line_lock::{
    BalanceRefusal, Closing, Count, FindRefusal, Office, OfficeWork, OpenedOn, Reached, Rule,
    SearchStep, SearchTarget, Seat, ToldBalance, Turn, TurnRefusal, WithinRefusal, with_office,
};
use sector_device::MemoryDevice;
use std::alloc::Global;
use std::process::Abort;
use std::sync::Wait;

// Two turns, which are the answer, and what the seats are told before, between and after them.
#[derive(Drop)]
struct OneTurnAfterTheOther<'a, R> {
    rt: &'a R,
}

impl<'a, R: Abort + Wait> OfficeWork<MemoryDevice> for OneTurnAfterTheOther<'a, R> {
    type Answer = [Turn; 2];

    type Failure = WithinRefusal;

    fn work<L: Count + OpenedOn + Send + Sync>(
        self,
        office: &Office<MemoryDevice, L>,
        mut seats: Vec<Seat<L>>,
    ) -> Result<(Vec<Seat<L>>, [Turn; 2]), WithinRefusal> {
        let OneTurnAfterTheOther { rt } = self;
        let alloc = *seats.allocator();
        let turns = one_turn_each(rt, alloc, office, seats.as_mut_slice());
        // in whatever order the seats are handed in
        seats.as_mut_slice().reverse();
        Ok((seats, turns))
    }
}

fn one_turn_each<L: Count + OpenedOn, R: Abort + Wait>(
    rt: &R,
    alloc: Global,
    office: &Office<MemoryDevice, L>,
    seats: &mut [Seat<L>],
) -> [Turn; 2] {
    let [bottom, top] = seats else {
        panic!(rt; "two seats");
    };
    assert!(rt; is_new(bottom, 0) && is_new(top, 1) && is_denied(rt, office, top, 0));
    let first = bottom_turn(rt, office, bottom);
    let second = top_turn(rt, office, top);
    assert!(rt; is_listed(bottom, &first, 0) && is_listed(top, &second, 1));
    assert!(rt; is_shown(alloc, office, top));
    [first, second]
}

// The seat of this station has no turn, and was denied none.
fn is_new<L: Count>(seat: &Seat<L>, station: u8) -> bool {
    seat.station() == station && seat.turns().is_empty() && seat.denied().is_none()
}

// The seat lists this turn alone, and was last told that so many turns were taken.
fn is_listed<L: Count>(seat: &Seat<L>, turn: &Turn, reached: u64) -> bool {
    let [listed] = seat.turns() else {
        return false;
    };
    listed == turn && seat.reached() == reached
}

const SHOWN: &str =
    "Office { .. } Seat { station: 1, turns: 1, denied: Some(2), reached: 1, told: Some(ToldBalance { account: 1, amount: 5, turns: 2 }), was_faulted: false, .. }";

fn is_shown<L: Count + OpenedOn>(
    alloc: Global,
    office: &Office<MemoryDevice, L>,
    top: &Seat<L>,
) -> bool {
    match format!(in alloc; "{office:?} {top:?}") {
        Ok(shown) => shown.as_str() == SHOWN,
        Err(_) => false,
    }
}

// The seat is told what account 1 holds, where the history has so many turns.
fn is_told<L: Count + OpenedOn, R: Wait>(
    rt: &R,
    office: &Office<MemoryDevice, L>,
    seat: &mut Seat<L>,
    amount: u64,
    turns: u64,
) -> bool {
    let account = 1;
    let told = ToldBalance {
        account,
        amount,
        turns,
    };
    office.balance(rt, seat, 1) == Ok(amount)
        && office.balance(rt, seat, 1_025) == Err(BalanceRefusal::NoAccount)
        && seat.told() == Some(told)
        && !seat.was_faulted()
}

// The seat is denied a turn, which would have had this index.
fn is_denied<L: Count + OpenedOn, R: Wait>(
    rt: &R,
    office: &Office<MemoryDevice, L>,
    seat: &mut Seat<L>,
    index: u64,
) -> bool {
    office.turn(rt, seat, &[]) == Err(TurnRefusal::NotPrivileged) && seat.denied() == Some(index)
}

// The turn within that limit isn't taken, for this reason; the seat was last told of one turn.
fn is_refused_within<L: Count + OpenedOn, R: Wait>(
    rt: &R,
    office: &Office<MemoryDevice, L>,
    seat: &mut Seat<L>,
    limit: u64,
    refusal: WithinRefusal,
) -> bool {
    office.turn_within(rt, seat, &[], limit) == Err(refusal) && seat.reached() == 1
}

// The first turn is the bottom station's, which is denied a second one.
fn bottom_turn<L: Count + OpenedOn, R: Abort + Wait>(
    rt: &R,
    office: &Office<MemoryDevice, L>,
    bottom: &mut Seat<L>,
) -> Turn {
    let sixteen = office.turn(rt, bottom, &[deposit(1, 5); 16]);
    assert!(rt; sixteen == Err(TurnRefusal::TooMany) && is_told(rt, office, bottom, 0, 0));
    let first = needed(rt, office.turn(rt, bottom, &[deposit(1, 5)]));
    assert!(rt;
        (first.index, first.rule, first.posted) == (0, Rule::Bottom, Some(0))
            && is_denied(rt, office, bottom, 1)
    );
    first
}

// The second turn is the top station's, where two are wanted and not where one is; it is denied a
// third one.
fn top_turn<L: Count + OpenedOn, R: Abort + Wait>(
    rt: &R,
    office: &Office<MemoryDevice, L>,
    top: &mut Seat<L>,
) -> Turn {
    assert!(rt; is_refused_within(rt, office, top, 1, WithinRefusal::Reached));
    let second = needed(rt, office.turn_within(rt, top, &[], 2));
    let denied = WithinRefusal::Turn(TurnRefusal::NotPrivileged);
    assert!(rt;
        (second.index, second.rule, second.posted) == (1, Rule::Top, None)
            && is_refused_within(rt, office, top, 3, denied)
            && is_told(rt, office, top, 5, 2)
            && is_nowhere(office.search(rt, top, SearchTarget::Reference(9), 0, u64::MAX))
    );
    second
}

// Whether a search came to its end, and found nothing.
fn is_nowhere(answer: Result<SearchStep, FindRefusal>) -> bool {
    let (began, since) = (0, 0);
    answer
        == Ok(SearchStep {
            posting: None,
            reached: Reached::All { began, since },
        })
}

// An office of two stations over an empty ledger, closed behind its turns.
fn closed<R: Abort + Wait>(rt: &R, alloc: Global) -> (Closing<MemoryDevice>, [Turn; 2]) {
    let (device, line) = (formatted(rt, alloc, 4), line(rt, [0, 0], [1, 0]));
    let work = OneTurnAfterTheOther { rt };
    needed_of(rt, with_office(alloc, device, line, work))
}

// The clerk lists these turns, of which the first posted a deposit of 5, and both stations moved.
fn are_closed(rt: &impl Abort, closing: &Closing<MemoryDevice>, turns: &[Turn]) -> bool {
    let Closing { clerk, audit } = closing;
    clerk.history() == turns
        && clerk.ledger().balance(1) == Some(5)
        && line(rt, [1, 1], [1, 0]) == audit.last
        && audit.first_legitimate == Some(0)
}

#[test]
fn turns_are_listed_and_refusals_noted(rt: HostRuntime) {
    let (closing, turns) = closed(&rt, rt.alloc());
    assert!(rt; are_closed(&rt, &closing, &turns));
}
