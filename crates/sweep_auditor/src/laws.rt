//! What every run has, each the contract of a function with an empty body. No code stands in
//! these statements: they speak of configurations, moves and runs alone, for lines of any length.

ghost use Rattle.sweep_auditor.specs.Sharpness.{NoFewerMoves, NoFewerMovesFromAny};
ghost use Rattle.sweep_auditor.specs.Stabilization.{Stabilizes, StabilizesFromAny};
ghost use Rattle.sweep_auditor.specs.Stabilization.{StabilizesInCube, SweepsFromLegitimate};

/// With N for the number of the top station and k for the number of privileges at the start: every
/// run of (k - 1)·(2·N - k) + 1 moves contains a legitimate configuration, whichever privilege
/// moved each time.
pub fn stabilizes()
    ensures { Stabilizes }
{}

/// From any start, every run of N² - N + 1 moves contains a legitimate configuration.
pub fn stabilizes_from_any()
    ensures { StabilizesFromAny }
{}

/// Every run of N³ - 1 moves contains a legitimate configuration.
pub fn stabilizes_in_cube()
    ensures { StabilizesInCube }
{}

/// From N = 3 on no fewer moves are enough: for each k from 2 to N there is a start with k
/// privileges and a run of (k - 1)·(2·N - k) moves that contains no legitimate configuration.
pub fn no_fewer_moves()
    ensures { NoFewerMoves }
{}

/// And so there is a run of N² - N moves that contains none.
pub fn no_fewer_moves_from_any()
    ensures { NoFewerMovesFromAny }
{}

/// After a legitimate configuration every one is legitimate, the stations that move are a stretch
/// of the sweep, and a configuration comes again after each 4·N moves and at no other time.
pub fn sweeps_from_legitimate()
    ensures { SweepsFromLegitimate }
{}
