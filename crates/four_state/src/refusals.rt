//! Why bits are no line.

use thiserror::Error;

/// Why bits are no line.
#[derive(Clone, Copy, Debug, PartialEq, Eq, Error)]
pub enum LineRefusal {
    /// The number of stations is less than 2 or more than 64.
    #[error("a line has 2 to 64 stations")]
    Stations,
    /// The number of stations will do, and a list of bits is shorter or longer.
    #[error("each list of bits has one bit for each station")]
    Length,
}
