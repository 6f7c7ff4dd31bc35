/// The numbers of a sound ledger.
#[derive(Clone, Copy, Debug, PartialEq, Eq)]
pub struct Numbers {
    /// The version of its layout: 1, 2 or 3.
    pub version: u16,
    /// How many slots each bank has, or the one row of layout 1.
    pub slots: u64,
    /// The number of the live bank, 0 or 1, and 0 in layout 1.
    pub live_bank: u8,
    /// The epoch of the live bank. Layout 1 has none.
    pub epoch: Option<u64>,
    /// The sequence of the first record that is there.
    pub base: u64,
    /// The sequence of the next record.
    pub next: u64,
}
