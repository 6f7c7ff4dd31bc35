//! Opening a file as a ledger, and making one.
ghost use Rattle.std.specs.Prelude.{◌≡◌, ◌+◌, ◌*◌, ◌<◌, ◌≤◌, ◌^◌, ◌↔◌, max, false, IsOk, IsTrue};
ghost use Rattle.std.specs.Prelude.{IfOk};
ghost use Rattle.std.specs.Int.NonZero.{non_zero_u64_get};

use crate::plan::{check_formatting, sectors_planned};
use crate::refusal::LedgerRefusal;
use device_files::{Creation, DeviceFile, DeviceNeeds, DeviceOn, FileFault, LockedFile, NewFile};
use gate_journal::{FirstSector, FormatRefusal, MOST_SLOTS, format, sectors_needed};
use std::alloc::Global;
use std::fs::Files;
use std::num::NonZeroU64;

/// The most sectors that a ledger needs.
pub const MOST_SECTORS: u64 = 4_000_039;

/// How a ledger is to be made.
#[derive(Clone, Copy, Debug, PartialEq, Eq)]
pub struct FormatOptions {
    /// How many slots each bank gets: at most 1,000,000.
    pub slots: NonZeroU64,
    /// How many sectors the device has at least, besides the 39 + 4·slots that it needs.
    pub sectors: u64,
    /// Whether it may hold anything.
    pub overwrite: bool,
}

/// Opens the ledger at a path, which is there, as a device of at least as many sectors as are asked
/// for. A whole ledger in a file is grown to them by zero sectors. All else is refused, and keeps
/// its bytes and its length.
///
/// # Errors
/// [`LedgerRefusal`].
pub fn open_ledger<F: DeviceFile + Drop, R: Files<File = F> + AllocGlobal>(
    rt: &R,
    path: &str,
    asked: u64,
) -> Result<DeviceOn<F>, LedgerRefusal>
    ensures enough { IfOk result (λ device. asked ≤ device.inner.sectors) }
    ensures fits { IfOk result (λ device. device.inner.sectors * 512 < 2 ^ 63) }
    ensures failures { IfOk result (λ device.
        (device.inner.failures ≡ 0) × (device.refused ≡ 0)) }
    ensures works { IfOk result (λ device. device.stopped ≡ false) }
{
    let file = LockedFile::open(rt, rt.alloc(), path, Creation::Never)?;
    let first = file.first_sector()?;
    if FirstSector::of(&first) == FirstSector::NoJournal {
        return Err(LedgerRefusal::NoLedger);
    }
    let sectors = sectors_planned(&first, file.sectors(), asked)?;
    let wanted = DeviceNeeds {
        sectors,
        overwrite: false,
    };
    Ok(file.into_device(rt, wanted)?)
}

/// Opens what a script works on: a disk as `FileDevice::open` does, and so a file, which is made if
/// that is asked for and it isn't there. But a part of a ledger, or one of another version, isn't
/// grown, so that the script finds what is wrong with it.
///
/// # Errors
/// As `FileDevice::open_with_cause`.
pub fn open_for_script<F: DeviceFile + Drop, R: Files<File = F> + AllocGlobal>(
    rt: &R,
    path: &str,
    asked: u64,
    making: Creation,
) -> Result<DeviceOn<F>, FileFault>
    ensures fits { IfOk result (λ device. device.inner.sectors * 512 < 2 ^ 63) }
    ensures failures { IfOk result (λ device.
        (device.inner.failures ≡ 0) × (device.refused ≡ 0)) }
    ensures works { IfOk result (λ device. device.stopped ≡ false) }
{
    let file = LockedFile::open(rt, rt.alloc(), path, making)?;
    let sectors = if file.is_disk() {
        asked
    } else {
        sectors_for_script(&file, asked)
    };
    let wanted = DeviceNeeds {
        sectors,
        overwrite: false,
    };
    file.into_device(rt, wanted)
}

// How many sectors a file is to have. One that can't be read is left as it is.
fn sectors_for_script<F: DeviceFile + Drop>(file: &LockedFile<'_, F>, asked: u64) -> u64 {
    let found = file.sectors();
    match file.first_sector() {
        Ok(first) => sectors_planned(&first, found, asked).unwrap_or(found),
        Err(_) => found,
    }
}

/// Makes an empty ledger at a path, where a file is made if none is there. What is there has to
/// hold nothing, unless it may be overwritten: each byte of a file is looked at, and of a disk the
/// first 256 sectors. A file gets the sectors that the ledger needs; one that this call made is
/// removed if it doesn't become a ledger. What is refused keeps its bytes and its length.
///
/// # Errors
/// [`LedgerRefusal`]. After `Format(Device)` nothing is known of the sectors.
pub fn format_ledger<F: DeviceFile + Drop, R: Files<File = F> + AllocGlobal>(
    rt: &R,
    path: &str,
    formatting: FormatOptions,
) -> Result<DeviceOn<F>, LedgerRefusal>
    ensures enough { IfOk result (λ device. formatting.sectors ≤ device.inner.sectors) }
    ensures needed { IfOk result (λ device.
        39 + 4 * non_zero_u64_get formatting.slots ≤ device.inner.sectors) }
    ensures fits { IfOk result (λ device. device.inner.sectors * 512 < 2 ^ 63) }
{
    let (mut device, made) = device_to_format(rt, path, formatting)?;
    if let Err(refusal) = format(&mut device, formatting.slots.get()) {
        take_back(rt, made);
        return Err(LedgerRefusal::Format(refusal));
    }
    Ok(device)
}

/// Removes the file that was made for a ledger.
pub(crate) fn take_back<R: Files>(rt: &R, made: Option<NewFile<'_>>) {
    if let Some(made) = made {
        made.remove(rt);
    }
}

/// The device on which a ledger is to be made, and its file, if this call made it.
pub(crate) fn device_to_format<'a, F: DeviceFile + Drop, R: Files<File = F> + AllocGlobal>(
    rt: &R,
    path: &'a str,
    formatting: FormatOptions,
) -> Result<(DeviceOn<F>, Option<NewFile<'a>>), LedgerRefusal>
    ensures enough { IfOk result (λ both. formatting.sectors ≤ both.0.inner.sectors) }
    ensures needed { IfOk result (λ both.
        39 + 4 * non_zero_u64_get formatting.slots ≤ both.0.inner.sectors) }
    ensures fits { IfOk result (λ both. both.0.inner.sectors * 512 < 2 ^ 63) }
{
    let slots = formatting.slots.get();
    if slots > MOST_SLOTS {
        return Err(LedgerRefusal::Format(FormatRefusal::TooManySlots));
    }
    let file = LockedFile::open(rt, rt.alloc(), path, Creation::IfMissing)?;
    check_held(rt.alloc(), &file, formatting.overwrite)?;
    let wanted = DeviceNeeds {
        sectors: sectors_to_format(slots, file.sectors(), file.is_disk(), formatting.sectors)?,
        overwrite: formatting.overwrite,
    };
    let made = file.made();
    Ok((file.into_device(rt, wanted)?, made))
}

// How many sectors a device is to have that gets so many slots. A disk isn't grown, so it has those
// that they need already.
fn sectors_to_format(
    slots: u64,
    found: u64,
    is_disk: bool,
    asked: u64,
) -> Result<u64, LedgerRefusal>
    requires { slots ≤ MOST_SLOTS }
    ensures needed { IfOk result (λ sectors. sectors ≡ max (39 + 4 * slots) asked) }
    ensures too_small { IsOk result ↔ (IsTrue is_disk → 39 + 4 * slots ≤ found) }
{
    let needed = sectors_needed(slots);
    if is_disk && found < needed {
        return Err(LedgerRefusal::TooSmall {
            slots,
            found,
            needed,
        });
    }
    Ok(needed.max(asked))
}

// That a file may be formatted. Whether a disk holds something else than a ledger is told where it
// becomes a device.
fn check_held<F: DeviceFile + Drop>(
    alloc: Global,
    file: &LockedFile<'_, F>,
    overwrite: bool,
) -> Result<(), LedgerRefusal> {
    let first = file.first_sector()?;
    let is_blank = if file.is_disk() {
        FirstSector::of(&first) == FirstSector::NoJournal
    } else {
        overwrite || file.sectors() == 0 || file.is_blank(alloc)?
    };
    check_formatting(&first, file.sectors(), is_blank, overwrite)
}
