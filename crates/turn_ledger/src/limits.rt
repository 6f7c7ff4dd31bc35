//! How many accounts, how much money and how many entries there may be.

/// The number of accounts. They are numbered from 1 to this.
pub const ACCOUNTS: u32 = 1024;

/// As many, as the length of an array with an item for each account.
pub const ALL_ACCOUNTS: usize = 1024;

/// The most that all accounts together may hold, in the unit of amounts: 10^18.
pub const TOTAL_LIMIT: u64 = 1_000_000_000_000_000_000;

/// The most entries of one batch.
pub const BATCH_LIMIT: usize = 15;

/// The bytes in which an entry is written.
pub const ENTRY_BYTES: usize = 32;
