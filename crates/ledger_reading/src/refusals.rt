//! Why nothing was added to an archive.
ghost use Rattle.std.specs.Prelude.{◌≡◌};
ghost use Rattle.ledger_reading.specs.Adding.{add_refusal_of};

use gate_journal::{FormatRefusal, ReadRefusal};
use thiserror::Error;

/// Why a ledger doesn't go on where an archive ends. The first that holds is answered.
#[derive(Clone, Copy, Debug, PartialEq, Eq, Error)]
pub enum FollowRefusal {
    /// The first record that is listed comes later: the records between are in neither.
    #[error("records between are lost")]
    Gap,
    /// The last record that is listed comes earlier.
    #[error("it ends before the archive does")]
    Short,
    /// A record of the ledger wasn't read.
    #[error("the ledger wasn't read: {0}")]
    Ledger(ReadRefusal),
    /// At the archive's end the ledger held other balances, or had other accounts sealed.
    #[error("it held something else where the archive ends")]
    Differs,
}

/// Why a ledger's records weren't added to an archive: they couldn't be compared with those of its
/// newest ledger, or aren't the same, or no journal was made of them. The first that holds is
/// answered.
#[derive(Clone, Copy, Debug, PartialEq, Eq, Error)]
pub enum AddRefusal {
    /// More records were asked for than 1,000,000.
    #[error("a bank has at most 1000000 slots")]
    TooManySlots,
    /// For s records the new device needs 39 + 4·s sectors.
    #[error("the new device has too few sectors for the slots")]
    TooSmall,
    /// A record of the ledger wasn't read.
    #[error("the ledger wasn't read: {0}")]
    Ledger(ReadRefusal),
    /// A record of the archive's newest ledger wasn't read.
    #[error("the archive wasn't read: {0}")]
    Newest(ReadRefusal),
    /// The records with this number aren't the same.
    #[error("record {0} is another one")]
    Differs(u64),
    /// The new device failed. After it nothing is known of its sectors.
    #[error("the new device failed")]
    Target,
}

impl From<ReadRefusal> for FollowRefusal {
    ghost use Rattle.ledger_reading.specs.declared.refusals.FollowRefusal.TheVariants.{Ledger};

    ghost from_gives = { λ read refusal. refusal ≡ Ledger read };

    fn from(refusal: ReadRefusal) -> Self {
        FollowRefusal::Ledger(refusal)
    }
}

impl From<FormatRefusal> for AddRefusal {
    ghost from_gives = { λ refusal made. made ≡ add_refusal_of refusal };

    fn from(refusal: FormatRefusal) -> Self {
        match refusal {
            FormatRefusal::TooManySlots => AddRefusal::TooManySlots,
            FormatRefusal::TooSmall => AddRefusal::TooSmall,
            FormatRefusal::Device => AddRefusal::Target,
        }
    }
}
