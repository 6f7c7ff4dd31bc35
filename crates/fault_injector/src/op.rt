/// Which calls of a device are meant.
#[derive(Clone, Copy, Debug, PartialEq, Eq, Hash)]
pub enum Op {
    /// Reads, writes and syncs.
    Any,
    /// Reads alone.
    Read,
    /// Writes alone.
    Write,
    /// Syncs alone.
    Sync,
}
