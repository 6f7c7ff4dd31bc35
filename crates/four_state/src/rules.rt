//! The rules by which stations move.

use std::fmt;

/// A rule of the line. With L and R for the lower and the upper neighbor of station S:
///
/// | Rule | Machine | Guard | Move |
/// |---|---|---|---|
/// | Bottom | the bottom one | x of S = x of R, and not up of R | flips its x |
/// | Top | the top one | x of S ≠ x of L | flips its x |
/// | Raise | any other | x of S ≠ x of L | flips its x, and its up becomes true |
/// | Lower | any other | x of S = x of R, up of S, and not up of R | its up becomes false |
#[derive(Clone, Copy, Debug, PartialEq, Eq, Hash)]
pub enum Rule {
    /// The bottom station's one rule.
    Bottom,
    /// The top station's one rule.
    Top,
    /// The rule by which a station between them follows the one below it.
    Raise,
    /// The rule by which a station between them follows the one above it.
    Lower,
}

/// The rule's name.
impl fmt::Display for Rule {
    fn fmt<W: fmt::Write>(&self, f: &mut fmt::Formatter<W>) -> fmt::Result {
        write!(f, "{self:?}")
    }
}
