//! A law of listings, the contract of a function that does nothing.
ghost use Rattle.std.specs.Prelude.{◌≡◌, Option, Some};
ghost use Rattle.gate_journal.specs.Reading.{BankContents};
ghost use Rattle.gate_journal.specs.Journal.{HoldsContents, JournalState};
ghost use Rattle.gate_journal.specs.declared.earlier.EarlierBank.{EarlierBank};
ghost use Rattle.journal_recovery.specs.Sight.{Sight, IsInSight};
ghost use Rattle.ledger_reading.specs.Whole.{Whole, AreInSight, HasEarlier, Holds};
ghost use Rattle.ledger_reading.specs.declared.any_journal.AnyJournal.TheVariants.{Present};

use gate_journal::one_reading;
use sector_device::Device;

/// What is listed of a journal of layout 3 is what is in sight of it, from which a search picks:
/// the same records, of which the first has the same number. A bank that leads up to the live one
/// has to be listed too, if there is one.
pub fn listed_is_in_sight<D: Device>()
    ensures { (journal : JournalState D) (listed seen : Option EarlierBank) (whole : Whole)
        (contents : BankContents) (sight : Sight) → Holds D.state (Present journal) listed whole
        → ((bank : EarlierBank) → HasEarlier D.state (Present journal) bank → listed ≡ Some bank)
        → HoldsContents D.state journal contents
        → IsInSight (D.state journal.device).reads journal.slots journal.live contents seen sight
        → AreInSight journal listed whole sight }
{
    one_reading();
}
