//! The audit of a list of moves.

ghost use Rattle.std.specs.Prelude.{◌≡◌, ℕ, ◌+◌, ◌-◌, ◌*◌, ◌^◌, ◌≤◌, ◌↔◌, length, drop, IsOk, IfOk};
ghost use Rattle.std.specs.Prelude.{IfErr, IfSome, IsSomeAnd, Some, None};
ghost use Rattle.four_state.specs.Configuration.{IsLine};
ghost use Rattle.four_state.specs.Privilege.{IsLegitimate, privileges_of};
ghost use Rattle.sweep_auditor.specs.Run.{after, IsRun, IsFirstLegitimate, AuditRefuses};
ghost use Rattle.sweep_auditor.specs.Stabilization.{top_of, LegitimateFrom, IsStretch, ComesRound};

use crate::moves::{Audit, AuditRefusal, Move};
use four_state::Line;

/// Goes through the moves from the start. The start has index 0, and the configuration after i
/// moves has index i.
///
/// # Errors
/// The first move that is no privilege of the configuration before it.
// A call of its own, so that the loop has all registers wherever it is called from.
#[inline(never)]
pub fn audit(start: Line, moves: &[Move]) -> Result<Audit, AuditRefusal>
    ensures ok { IsOk result ↔ IsRun start moves.now }
    ensures refused { IfErr result (AuditRefuses start moves.now) }
    ensures last { IfOk result (λ audit. audit.last ≡ after start moves.now) }
    ensures line { IfOk result (λ audit. IsLine audit.last) }
    ensures first { IfOk result
        (λ audit. IsFirstLegitimate start moves.now (length moves.now) audit.first_legitimate) }

    // With n for the number of the top station and k for the number of privileges at the start,
    // (k - 1)·(2·n - k) + 1 moves are enough, whichever they are. From any start n² - n + 1 are
    // enough, and so are n³ - 1.
    ensures stabilizes { IfOk result
        (λ audit. let n = top_of start in
        let k = length (privileges_of start) in
        (k - 1) * (2 * n - k) + 1 ≤ length moves.now
        → IsSomeAnd audit.first_legitimate (λ i. i ≤ (k - 1) * (2 * n - k) + 1)) }
    ensures stabilizes_from_any { IfOk result
        (λ audit. let n = top_of start in
        n ^ 2 - n + 1 ≤ length moves.now
        → IsSomeAnd audit.first_legitimate (λ i. i ≤ n ^ 2 - n + 1)) }
    ensures stabilizes_in_cube { IfOk result
        (λ audit. let n = top_of start in
        n ^ 3 - 1 ≤ length moves.now
        → IsSomeAnd audit.first_legitimate (λ i. i ≤ n ^ 3 - 1)) }

    // From then on the stations sweep up and down.
    ensures stays_legitimate { IfOk result
        (λ audit. IfSome audit.first_legitimate (λ i. LegitimateFrom start moves.now i)) }
    ensures sweeps { IfOk result
        (λ audit. IfSome audit.first_legitimate (λ i.
        IsStretch (top_of start) (drop i moves.now))) }
    ensures comes_round { IfOk result
        (λ audit. IfSome audit.first_legitimate (λ i. ComesRound start moves.now i)) }
{
    let mut line = start;
    let mut first_legitimate = noted(None, 0, &line);
    for (index, step) in moves.iter().enumerate() {
        if !line.enabled(step.station, step.rule) {
            return Err(AuditRefusal::NotEnabled { index });
        }
        line.make_move(step.station, step.rule);
        first_legitimate = noted(first_legitimate, index + 1, &line);
    }
    Ok(Audit {
        first_legitimate,
        last: line,
    })
}

// The first legitimate index, at a line that has this index.
fn noted(first: Option<usize>, index: usize, line: &Line) -> Option<usize>
    ensures found { IfSome first (λ i. result ≡ Some i) }
    ensures here { first ≡ None → IsLegitimate line.now → result ≡ Some index }
    ensures not_here { first ≡ None → ¬ IsLegitimate line.now → result ≡ None }
    ensures line { first ≡ None → IsLine line.now }
{
    if first.is_none() && line.is_legitimate() {
        Some(index)
    } else {
        first
    }
}
