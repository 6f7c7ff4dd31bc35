//! What `turn_console` is asked for.
ghost use Rattle.std.specs.Prelude.{◌≡◌, ◌↔◌, ◌⊎◌, None, Some, false, IsSome, IsTrue, IfOk, IfSome};
ghost use Rattle.std.specs.Prelude.{Err, option_map};
ghost use Rattle.front_program.specs.ConsoleSettings.{IsPlanOf, NamesOnePath};

use crate::invocation::{OlderLedger, ScriptFile, ScriptOptions};
use crate::wrong_words::WrongWords;
use std::num::NonZeroU64;

/// What the words ask for.
#[derive(Clone, Copy, Debug)]
pub struct Options<'a> {
    /// The path of the file that is the device; without one the device is in memory.
    pub device: Option<&'a str>,
    /// How many sectors the device has, a file at least: 1 to 4,000,039.
    pub sectors: u64,
    /// The path of a file of an older layout, whose ledger is copied onto the device first.
    pub migrate: Option<&'a str>,
    /// How many slots each bank of the device then has: 1 to 1,000,000.
    pub slots: Option<NonZeroU64>,
    /// Whether the device is a disk that is taken whatever it holds.
    pub overwrite: bool,
}

impl<'a> Options<'a> {
    /// The script that is to be run, if the options go together. What it posts isn't noted.
    ///
    /// # Errors
    /// [`WrongWords`], the first that holds.
    pub fn plan(self) -> Result<ScriptOptions<'a>, WrongWords>
        ensures plan { IfOk result (IsPlanOf self.entry) }
        ensures migrate_alone { (result ≡ Err WrongWords.MigrateAlone)
            ↔ (IsSome self.entry.migrate
            × ((self.entry.device ≡ None) ⊎ (self.entry.slots ≡ None))) }
        ensures slots_alone { (result ≡ Err WrongWords.SlotsAlone)
            ↔ ((self.entry.migrate ≡ None) × IsSome self.entry.slots) }
        ensures one_path { (result ≡ Err WrongWords.OnePath)
            ↔ (NamesOnePath self.entry × IsSome self.entry.slots) }
        ensures overwrite_alone { (result ≡ Err WrongWords.OverwriteAlone)
            ↔ (IsTrue self.entry.overwrite × (self.entry.device ≡ None)
            × (self.entry.migrate ≡ None) × (self.entry.slots ≡ None)) }
    {
        let (old, path, slots) = match (self.migrate, self.device, self.slots) {
            (None, None, None) if self.overwrite => return Err(WrongWords::OverwriteAlone),
            (None, _, None) => return Ok(self.running(None)),
            (None, _, Some(_)) => return Err(WrongWords::SlotsAlone),
            (Some(old), Some(path), Some(slots)) => (old, path, slots),
            (Some(_), _, _) => return Err(WrongWords::MigrateAlone),
        };
        if old == path {
            return Err(WrongWords::OnePath);
        }
        Ok(self.running(Some(OlderLedger { path: old, slots })))
    }

    // The script on its device, which an older ledger may be copied onto first.
    fn running(self, older: Option<OlderLedger<'a>>) -> ScriptOptions<'a>
        ensures device { option_map (λ file. file.path) result.file ≡ self.entry.device }
        ensures file { IfSome result.file (λ file. (file.overwrite ≡ self.entry.overwrite)
            × (file.noted ≡ false) × (file.older ≡ older.entry)) }
        ensures sectors { result.sectors ≡ Some self.entry.sectors }
    {
        let sectors = Some(self.sectors);
        let Some(path) = self.device else {
            let file = None;
            return ScriptOptions { file, sectors };
        };
        let file = Some(ScriptFile {
            path,
            overwrite: self.overwrite,
            older,
            noted: false,
        });
        ScriptOptions { file, sectors }
    }
}
