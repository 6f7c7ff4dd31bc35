ghost use Rattle.std.specs.Prelude.{◌≡◌, ℕ, true};
ghost use Rattle.sector_device.specs.Image.{Image};
ghost use Rattle.gate_journal.specs.Layout.{number_of};
ghost use Rattle.gate_journal.specs.Snapshot.{zero_spare};
ghost use Rattle.gate_journal.specs.Reading.{BankContents, ReadsAs};
ghost use Rattle.gate_journal.specs.declared.layout.LiveBank.{LiveBank};
ghost use Rattle.turn_ledger.specs.State.{IsAccount, balance_of, mark_of};
ghost use Rattle.journal_recovery.specs.State.{State, ledger_of};
ghost use Rattle.journal_recovery.specs.Recovery.{RecoversTo};
ghost use Rattle.journal_recovery.specs.Refused.{IsNoStart, RecoveryRefuses};
ghost use Rattle.journal_recovery.specs.Older.{OldRecoversTo, OldRecoveryRefuses};
ghost use Rattle.journal_recovery.specs.declared.refusals.OpenRefusal.{OpenRefusal};
ghost use Rattle.journal_recovery.specs.declared.refusals.OpenRefusal.TheVariants.{Damaged};
ghost use Rattle.journal_recovery.specs.declared.refusals.Cause.TheVariants.{Bank};

use gate_journal::{one_old_reading, one_reading};

/// An image recovers to at most one state, and if it does no refusal holds of it; of any image at
/// most one refusal holds. So `recover` answers `Ok` on an honest device exactly if what reads give
/// recovers to a state, out of memory and device faults apart.
pub fn one_recovery()
    ensures state { (image : Image) (s t : State) → RecoversTo s image → RecoversTo t image
        → s ≡ t }
    ensures refused { (image : Image) (s : State) (refusal : OpenRefusal)
        → RecoversTo s image → RecoveryRefuses image refusal → ⊥ }
    ensures refusals { (image : Image) (a b : OpenRefusal) → RecoveryRefuses image a
        → RecoveryRefuses image b → a ≡ b }
{
    one_reading();
}

/// In what an image recovers to each account is sealed that the live bank's snapshot marks, with
/// the balance that it has there; and behind the marks stand zeros. Where another byte stands
/// there, or the balances are over the limit together, the bank is what is damaged.
pub fn seals_are_recovered()
    ensures no_spare { (image : Image) (slots : ℕ) (live : LiveBank) (contents : BankContents)
        (s : State) → ReadsAs image slots live contents → RecoversTo s image
        → contents.spare ≡ zero_spare }
    ensures sealed { (image : Image) (slots : ℕ) (live : LiveBank) (contents : BankContents)
        (s : State) → ReadsAs image slots live contents → RecoversTo s image
        → (account : ℕ) → IsAccount account
        → let kept = ledger_of contents.snapshot in mark_of kept account ≡ true
        → (balance_of s.ledger account ≡ balance_of kept account)
        × (mark_of s.ledger account ≡ true) }
    ensures damaged { (image : Image) (slots : ℕ) (live : LiveBank) (contents : BankContents)
        → ReadsAs image slots live contents → IsNoStart contents
        → RecoveryRefuses image (Damaged (number_of live.bank) Bank) }
{
    one_reading();
}

/// The same of layouts 1 and 2: an image recovers to at most one state, if it does no refusal holds
/// of it, and of any image at most one refusal holds. So what `read_old` answers on an honest
/// device is determined by what reads give, want of memory and device faults apart.
pub fn one_old_recovery()
    ensures state { (image : Image) (s t : State) → OldRecoversTo s image → OldRecoversTo t image
        → s ≡ t }
    ensures refused { (image : Image) (s : State) (refusal : OpenRefusal)
        → OldRecoversTo s image → OldRecoveryRefuses image refusal → ⊥ }
    ensures refusals { (image : Image) (a b : OpenRefusal) → OldRecoveryRefuses image a
        → OldRecoveryRefuses image b → a ≡ b }
{
    one_old_reading();
}
