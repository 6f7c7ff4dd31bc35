//! Whether a device may hold postings.
ghost use Rattle.std.specs.Prelude.{◌≡◌, ◌≢◌, ◌⊎◌, ◌↔◌, Err, IsTrue, IfOk, IfErr};
ghost use Rattle.sector_device.specs.Crash.{AreLooks};
ghost use Rattle.journal_recovery.specs.Postings.{MayHoldPostings};

use crate::laws::one_recovery;
use crate::recovery::recover;
use crate::refusals::OpenRefusal;
use gate_journal::begins_as_journal;
use sector_device::{Device, DeviceFault};
use std::alloc::Global;

/// Whether a device may hold postings that writing over it would lose: it begins as a journal does,
/// of any layout, damaged or not, and isn't a ledger of the present layout whose next sequence is
/// 0. It is only read, and handed back.
///
/// # Errors
/// `Memory` and `Device` alone.
pub fn may_hold_postings<D: Device>(alloc: Global, device: D) -> (D, Result<bool, OpenRefusal>)
    ensures looks { AreLooks (D.state device) (D.state result.0)
        (result.1 ≡ Err OpenRefusal.Device) }
    ensures refused { IfErr result.1 (λ refusal.
        (refusal ≡ OpenRefusal.Memory) ⊎ (refusal ≡ OpenRefusal.Device)) }

    // On an honest device.
    ensures told { (D.state device).honest
        → IfOk result.1 (λ yes. IsTrue yes ↔ MayHoldPostings (D.state device).reads) }
{
    let mut device = device;
    match begins_as_journal(&mut device) {
        Ok(true) => {}
        Ok(false) => return (device, Ok(false)),
        Err(DeviceFault) => return (device, Err(OpenRefusal::Device)),
    }
    one_recovery();
    match recover(alloc, device) {
        Ok(found) => {
            let next = found.journal.next();
            (found.journal.into_device(), Ok(next != 0))
        }
        Err((device, refusal)) if is_of_image(refusal) => (device, Ok(true)),
        Err((device, refusal)) => (device, Err(refusal)),
    }
}

// Whether that is a refusal of a device's image, and neither out of memory nor a fault.
fn is_of_image(refusal: OpenRefusal) -> bool
    ensures { IsTrue result
        ↔ ((refusal ≢ OpenRefusal.Memory) × (refusal ≢ OpenRefusal.Device)) }
{
    refusal != OpenRefusal::Memory && refusal != OpenRefusal::Device
}
