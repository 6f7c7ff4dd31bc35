//! What becomes of a file that is opened as a ledger, decided before anything of it changes.
ghost use Rattle.std.specs.Prelude.{◌≡◌, ◌⊎◌, ◌↔◌, ◌+◌, ◌*◌, ◌<◌, ◌≤◌, max, Err, Some, IsOk};
ghost use Rattle.std.specs.Prelude.{IsTrue, IfOk, IfErr, IfSome, IfNone};
ghost use Rattle.ledger_file.specs.Plan.{IsPart, IsWhole, IsForeign, IsHeld};

use crate::refusal::LedgerRefusal;
use gate_journal::{FirstSector, MOST_SLOTS, sectors_needed};
use sector_device::Sector;

/// How many sectors a file is to have that is opened with at least as many as are asked for. It has
/// `found` of them, of which the first is `first`, or zeros if there is none. One that begins as a
/// ledger does, and has not all of that ledger's sectors, is left as it is: filled up with zeros it
/// would be taken for a whole one, with fewer records.
///
/// # Errors
/// [`LedgerRefusal`], where it is so: it is of another version, or its first sector is damaged, or
/// it is too short.
pub fn sectors_planned(first: &Sector, found: u64, asked: u64) -> Result<u64, LedgerRefusal>
    ensures refused { (refusal : LedgerRefusal)
        → (result ≡ Err refusal) ↔ IsPart first.now found refusal }
    ensures planned { IfOk result (λ sectors. sectors ≡ max found asked) }
    ensures whole { IfOk result (λ _. IsForeign first.now ⊎ IsWhole first.now found) }
{
    match part_fault(first, found) {
        Some(refusal) => Err(refusal),
        None => Ok(found.max(asked)),
    }
}

/// Whether a file may be formatted: it is blank, which is to say that each of its bytes is zero, or
/// may be overwritten.
///
/// # Errors
/// [`LedgerRefusal`], by what it holds.
pub fn check_formatting(
    first: &Sector,
    found: u64,
    is_blank: bool,
    overwrite: bool,
) -> Result<(), LedgerRefusal>
    ensures allowed { IsOk result ↔ (IsTrue is_blank ⊎ IsTrue overwrite) }
    ensures held { IfErr result (IsHeld first.now found) }
{
    if is_blank || overwrite {
        return Ok(());
    }
    Err(held_fault(first, found))
}

// What a file holds that isn't blank.
fn held_fault(first: &Sector, found: u64) -> LedgerRefusal
    ensures { IsHeld first.now found result }
{
    if FirstSector::of(first) == FirstSector::NoJournal {
        return LedgerRefusal::HasOther;
    }
    match part_fault(first, found) {
        Some(refusal) => refusal,
        None => LedgerRefusal::HasLedger,
    }
}

// Why a file that begins as a ledger does isn't a whole one.
fn part_fault(first: &Sector, found: u64) -> Option<LedgerRefusal>
    ensures some { (fault : LedgerRefusal) → (result ≡ Some fault) ↔ IsPart first.now found fault }
    ensures none { IfNone result (IsForeign first.now ⊎ IsWhole first.now found) }
{
    match FirstSector::of(first) {
        FirstSector::NoJournal => None,
        FirstSector::OtherVersion(version) => Some(LedgerRefusal::OtherVersion(version)),
        FirstSector::Unsound => Some(LedgerRefusal::Unsound),
        FirstSector::Journal { slots } => short_fault(slots, found),
    }
}

// Why a ledger with so many slots isn't whole.
fn short_fault(slots: u64, found: u64) -> Option<LedgerRefusal>
    requires { slots ≤ MOST_SLOTS }
    ensures some { IfSome result (λ fault. fault ≡ LedgerRefusal.Short slots found (39 + 4 * slots)) }
    ensures short { IfSome result (λ _. found < 39 + 4 * slots) }
    ensures whole { IfNone result (39 + 4 * slots ≤ found) }
{
    let needed = sectors_needed(slots);
    (found < needed).then_some(LedgerRefusal::Short {
        slots,
        found,
        needed,
    })
}
