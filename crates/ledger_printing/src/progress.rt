//! How far the printing of a journal is.

/// Is told how far the printing of a journal is.
pub trait Progress {
    /// So many records were printed or passed over, of all that there are.
    fn reached(&mut self, records: u64, all: u64);
}
