//! Laws of what counters are told, each the contract of a function that does nothing.
ghost use Rattle.office_sessions.specs.Covered.{LooksCover, ReferencesRise};

use sector_device::Device;

/// On an honest device a look passes over nothing from the batch on that it names: up to the last
/// record of the clerk that answered its last step, the station has no greater reference than the
/// one that the look tells, of those up to the look's limit. So the references above 0 that a
/// counter used are above those that its station has there, whoever posted them.
pub fn looks_cover<D: Device>()
    ensures looks { LooksCover D.state }
    ensures rise { ReferencesRise D.state }
{}
