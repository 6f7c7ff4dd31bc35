//! What a value was at some moments.
ghost use Rattle.std.specs.Prelude.{◌≡◌, ◌∷◌, ◌++◌, []};
ghost use Rattle.turn_clerk.specs.Past.{values_of};

use std::snapshot::Snapshot as Ghost;

/// What a value was at some moments, in order. Contracts see them; the program finds its mark
/// alone.
#[derive(Drop)]
pub(crate) enum Past<T> {
    /// At none.
    Nothing,
    /// At these moments, and then at one more.
    Then(Ghost<Past<T>>, Ghost<T>),
}

/// Notes what the value is now.
pub(crate) fn note<T>(past: &mut Past<T>, value: &T)
    ensures noted { values_of past.new ≡ values_of past.old ++ value.now ∷ [] }
{
    *past = Past::Then(Ghost::of(past), Ghost::of(value));
}
