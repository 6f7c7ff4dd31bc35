//! Runs scripts on the devices that are asked for.
ghost use Rattle.std.specs.Prelude.{◌≡◌, ◌≢◌, ◌≤◌, None, IfSome, OnOk, Err};
ghost use Rattle.std.specs.Str.Lines.{lines};
ghost use Rattle.front_scripts.specs.Lines.{first_fault};
ghost use Rattle.sector_device.specs.Crash.{LooksOnly};
ghost use Rattle.journal_recovery.specs.Migration.{IsMigrated};
ghost use Rattle.journal_recovery.specs.Older.{OldRecoveryRefuses};
ghost use Rattle.journal_recovery.specs.Postings.{MayHoldPostings};

use crate::faults::Fault;
use crate::invocation::{OlderLedger, ScriptFile, ScriptOptions};
use device_files::{Creation, FileDevice, FileFault};
use front_scripts::{ScriptFault, run_script};
use journal_recovery::{MigrateRefusal, OpenRefusal, may_hold_postings, migrate};
use ledger_counters::{RosterPath, note_script};
use ledger_file::{LedgerRefusal, open_for_script};
use sector_device::{Device, MemoryDevice};
use std::alloc::Global;
use std::fmt;
use std::fs::{File, Files};
use std::io::{Read, Write};
use std::sync::Wait;
use std::thread::Threads;
use text_streams::write_all;

/// How many sectors a device in memory has, unless that is said.
const IN_MEMORY: u64 = 64;

/// Runs a script on the device that is asked for. A file has to be there, unless it is said how
/// many sectors it has: then it is made and grown before the script is read, but a part of a
/// ledger, or one of another version, isn't grown.
///
/// # Errors
/// [`Fault`].
pub fn run_on_device<
    'a,
    F: Files<File = File> + AllocGlobal + Threads + Wait + Sync,
    R: Read,
    W: Write,
>(rt: &F, running: ScriptOptions<'a>, reader: &mut R, writer: &mut W) -> Result<(), Fault<'a>>
    // of a reader whose bytes are known: no line of the script is wrong
    ensures sound { OnOk result (IfSome (R.remaining reader.old) (λ bytes.
        first_fault 1 (lines bytes) ≡ None)) }
{
    let Some(file) = running.file else {
        let sectors = running.sectors.unwrap_or(IN_MEMORY);
        let device = MemoryDevice::new(rt.alloc(), sectors).map_err(ScriptFault::from)?;
        run_script(rt, rt.alloc(), reader, writer, device)?;
        return Ok(());
    };
    let device = match file.older {
        Some(older) => upgraded(rt, file, running.sectors, older, writer)?,
        None => opened(rt, file, running.sectors)?,
    };
    if file.noted {
        note_script(rt, RosterPath::Beside(file.path))?;
    }
    run_script(rt, rt.alloc(), reader, writer, device)?;
    Ok(())
}

// The device of a script.
fn opened<'a, F: Files<File = File> + AllocGlobal>(
    rt: &F,
    file: ScriptFile<'a>,
    sectors: Option<u64>,
) -> Result<FileDevice, Fault<'a>> {
    let path = file.path;
    let opened = match sectors {
        Some(sectors) if file.overwrite => FileDevice::overwrite(rt, rt.alloc(), path, sectors),
        Some(sectors) => open_for_script(rt, path, sectors, Creation::IfMissing),
        None => open_for_script(rt, path, 0, Creation::Never),
    };
    opened.map_err(|fault| unopened(path, fault))
}

fn unopened(path: &str, fault: FileFault) -> Fault<'_> {
    Fault::of_ledger(path, LedgerRefusal::from(fault))
}

// The device that an older ledger was copied onto, which is said. The older one is opened first, so
// that no other file is made where it can't be.
fn upgraded<'a, F: Files<File = File> + AllocGlobal, W: Write>(
    rt: &F,
    file: ScriptFile<'a>,
    sectors: Option<u64>,
    older: OlderLedger<'a>,
    writer: &mut W,
) -> Result<FileDevice, Fault<'a>> {
    let OlderLedger { path, slots } = older;
    let old = FileDevice::open_with_cause(rt, rt.alloc(), path, 0).map_err(|fault| unopened(
        path, fault,
    ))?;
    let device = opened(rt, file, sectors)?;
    let (device, migrated) = migrate_onto(rt.alloc(), old, device, slots.get());
    let Some(migrated) = migrated else {
        let held = LedgerRefusal::HasLedger;
        return Err(Fault::of_ledger(file.path, held));
    };
    migrated.map_err(|refusal| Fault::of_migration(path, file.path, refusal))?;
    say(rt.alloc(), format_args!("migrated {slots}"), writer)?;
    Ok(device)
}

/// Copies the ledger of an older device onto one that holds no postings, which is handed back, and
/// lets go of the older one. Where the other may hold postings, nothing is written to it, nothing
/// read of the older one, and there is no answer.
///
/// # Errors
/// As of [`migrate`].
pub(crate) fn migrate_onto<D: Device + Drop, E: Device + Drop>(
    alloc: Global,
    old: D,
    device: E,
    slots: u64,
) -> (E, Option<Result<(), MigrateRefusal>>)
    requires { 1 ≤ slots }

    // On honest devices.
    ensures not_empty { (E.state device).honest
        → result.1 ≡ None → MayHoldPostings (E.state device).reads }
    ensures refused { (E.state device).honest → MayHoldPostings (E.state device).reads
        → IfSome result.1 (λ made. OnOk made ⊥) }
    ensures nothing_lost { (E.state device).honest → MayHoldPostings (E.state device).reads
        → LooksOnly (E.state device) (E.state result.0) }
    ensures source { (D.state old).honest → (refusal : OpenRefusal)
        → result.1 ≡ Some (Err (MigrateRefusal.Source refusal))
        → refusal ≢ OpenRefusal.Memory → refusal ≢ OpenRefusal.Device
        → OldRecoveryRefuses (D.state old).reads refusal }
    ensures migrated { (D.state old).honest → (E.state device).honest
        → IfSome result.1
        (λ made. OnOk made (IsMigrated slots (D.state old).reads (E.state result.0))) }
{
    let (mut device, may_hold) = may_hold_postings(alloc, device);
    let refusal = match may_hold {
        Ok(true) => return (device, None),
        Ok(false) => {
            let (_old, migrated) = migrate(alloc, old, &mut device, slots);
            return (device, Some(migrated));
        }
        Err(OpenRefusal::Memory) => MigrateRefusal::Source(OpenRefusal::Memory),
        Err(_) => MigrateRefusal::Target,
    };
    (device, Some(Err(refusal)))
}

/// Says what was done on a line of its own.
pub(crate) fn say<L: fmt::Display + Drop, W: Write>(
    alloc: Global,
    line: L,
    writer: &mut W,
) -> Result<(), ScriptFault> {
    let text = format!(in alloc; "{line}\n")?;
    write_all(writer, text.as_bytes()).or(Err(ScriptFault::Write))
}
