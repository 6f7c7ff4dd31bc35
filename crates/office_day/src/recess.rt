//! What an office does between two spans.
ghost use Rattle.sector_device.specs.Image.{Image};
ghost use Rattle.office_day.specs.Archive.{Archive, CatchesUp, IsKept};

use gate_journal::Borrower;

/// Who is lent the journal between two spans of an office, while no station takes a turn: a look
/// adds to the archive what that lacks of the ledger.
pub trait Recess: Borrower {
    ghost use Rattle.office_day.specs.Archive.{no_archive};

    /// The archive that is kept meanwhile.
    ghost archive: { Self → Archive } = { λ _. no_archive };

    /// Whether the stations of a span were sent home for it, so that the office is opened again
    /// behind it.
    fn is_called(&self) -> bool;

    /// A look keeps it, whatever the device.
    ghost keeps: { (old : Self) → (new : Self) → Self.Borrower.changes old new
        → IsKept (archive old) (archive new) };

    /// If the device is honest, it catches up with the ledger there.
    ghost catches_up: { (image : Image) → (old : Self) → (new : Self) → Self.Borrower.learns image old new
        → CatchesUp image (archive old) (archive new) };
}
