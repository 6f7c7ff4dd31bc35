//! Audits of lists of moves: a worked example.
use crate::scenes::needed;
use four_state::{Line, Rule};
use sweep_auditor::{Audit, Move, audit};

fn by(station: u8, rule: Rule) -> Move {
    Move { station, rule }
}

#[test]
fn a_legitimate_line_sweeps_up_and_down(rt: HostRuntime) {
    let up = [true, false, false];
    let start = needed(&rt, Line::from_bits(3, &[false; 3], &up));
    let moves = [
        by(0, Rule::Bottom),
        by(1, Rule::Raise),
        by(2, Rule::Top),
        by(1, Rule::Lower),
    ];
    let told = Audit {
        first_legitimate: Some(0),
        last: needed(&rt, Line::from_bits(3, &[true; 3], &up)),
    };
    assert!(rt; audit(start, &moves) == Ok(told));
}
