//! A line and its moves: a worked example.
use crate::scenes::needed;
use four_state::Line;
use std::panic::Expect;

#[test]
fn an_example_of_a_move(rt: HostRuntime) {
    let bits = [false, false, false];
    let start = needed(&rt, Line::from_bits(3, &bits, &bits));
    let rule = start.privilege(0).expect(&rt, "the bottom station's turn");
    let mut line = start;
    line.make_move(0, rule);
    let shown = needed(&rt, format!(in rt.alloc(); "{start} {rule} {line}"));
    assert!(rt;
        shown.as_str() == "000/100 Bottom 100/100" && start.stations() == 3 && start.is_legitimate()
    );
}
