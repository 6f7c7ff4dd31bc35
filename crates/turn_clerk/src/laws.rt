//! Laws of clerks, each the contract of a function that does nothing.
ghost use Rattle.std.specs.Prelude.{◌≡◌, ℕ, List, take};
ghost use Rattle.sector_device.specs.Image.{Image};
ghost use Rattle.turn_ledger.specs.declared.entry.Entry.{Entry};
ghost use Rattle.journal_recovery.specs.State.{State, state_after};
ghost use Rattle.journal_recovery.specs.Recovery.{RecoversTo};
ghost use Rattle.turn_ledger.specs.State.{IsLedger};
ghost use Rattle.turn_clerk.specs.Clerk.{RecoversToPrefix};
ghost use Rattle.turn_clerk.specs.Lives.{Life, AreLives, IsAfterLives};

use journal_recovery::one_recovery;

/// Two lives of a device, one after the other: if a crash left an image that recovers to the ledger
/// of a prefix of the first life's batches, the state that the second life finds in it is the state
/// after that prefix.
pub fn lives_join()
    ensures { (image : Image) (opened found : State) (batches : List (List Entry)) (least : ℕ)
        → (prefix : RecoversToPrefix opened batches least image)
        → RecoversTo found image → found ≡ state_after opened (take prefix.count batches) }
{
    one_recovery();
}

/// A device over any number of lives: each begins with what the opening behind the one before it
/// found, and ends in a power failure that left a prefix of its batches with all those
/// acknowledged, as a clerk's calls promise of each moment. What the last opening finds is the
/// ledger of batches that are, life by life, a prefix of those that were accepted, and hold every
/// one that was acknowledged in any life.
pub fn lives_in_a_row()
    ensures { (from found : State) (lives : List Life) → IsLedger from.ledger
        → AreLives from lives found
        → IsAfterLives from lives found }
{
    one_recovery();
}
