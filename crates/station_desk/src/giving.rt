//! What goes between the rings and what is held.
ghost use Rattle.std.specs.Prelude.{◌≡◌, ◌⊎◌, ◌+◌, ◌≤◌, ◌<◌, [], ◌++◌, length, slice_get, Some};
ghost use Rattle.rtrb.specs.Ring.{sent, known_free, SameProducer};
ghost use Rattle.station_desk.specs.Messages.{entries_of, answers_to, answer_to};
ghost use Rattle.station_desk.specs.Taking.{HasTaken};
ghost use Rattle.station_desk.specs.Outcomes.{outcomes_of, outcome_of, undecided};

use crate::held::HeldAsks;
use crate::messages::{Answer, Ask, Outcome};
use rtrb::{Consumer, Producer};
use turn_clerk::Turn;
use turn_ledger::BATCH_LIMIT;

// Takes requests until `room` of them are held or no other is there.
pub(crate) fn take(asks: &mut Consumer<Ask>, held: &mut HeldAsks, room: usize)
    requires few { room ≤ BATCH_LIMIT }
    requires room { length held.old ≤ room }
    ensures { HasTaken asks.old asks.new held.old held.new room }
{
    for _ in held.len()..room {
        let Ok(ask) = asks.pop() else {
            return;
        };
        held.push(ask);
    }
}

// Gives the answers of a turn to the requests whose entries it took.
pub(crate) fn give(answers: &mut Producer<Answer>, asks: &[Ask], turn: &Turn)
    requires entries { turn.now.entries ≡ entries_of asks.now }
    requires free { length asks.now ≤ known_free answers.old }
    ensures ring { SameProducer answers.old answers.new }
    ensures given { sent answers.new
        ≡ sent answers.old ++ answers_to asks.now (outcomes_of turn.now) }
    ensures free { known_free answers.old ≡ known_free answers.new + length asks.now }
{
    for (place, ask) in asks.iter().enumerate() {
        answers.push_reserved(ask.answered(outcome_at(turn, place)));
    }
}

// Answers each of the requests that nothing is known of it.
pub(crate) fn give_undecided(answers: &mut Producer<Answer>, asks: &[Ask])
    requires { length asks.now ≤ known_free answers.old }
    ensures ring { SameProducer answers.old answers.new }
    ensures given { sent answers.new
        ≡ sent answers.old ++ answers_to asks.now (undecided asks.now) }
    ensures free { known_free answers.old ≡ known_free answers.new + length asks.now }
{
    for ask in asks {
        answers.push_reserved(ask.answered(Outcome::Undecided));
    }
}

// What became of a turn's entry at a place.
fn outcome_at(turn: &Turn, place: usize) -> Outcome
    requires { place < length turn.now.verdicts }
    ensures { slice_get (outcomes_of turn.now) place ≡ Some result }
{
    let verdict = turn.verdicts.get(place).unwrap();
    match (verdict, turn.posted) {
        (Err(refusal), _) => Outcome::Refused(refusal),
        (Ok(()), Some(number)) => Outcome::Posted(number),
        (Ok(()), None) => unreachable!(),
    }
}
