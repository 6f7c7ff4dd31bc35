//! The words of `turn_console`.
ghost use Rattle.std.specs.Prelude.{◌≡◌, ◌≤◌, None, false, IfOk, IfErr, IfSome, length, map};
ghost use Rattle.std.specs.Prelude.{option_map};
ghost use Rattle.std.specs.Int.NonZero.{non_zero_u64_get};
ghost use Rattle.clap.specs.Values.{kind_of};
ghost use Rattle.clap.specs.Words.{app_of, rule_of};
ghost use Rattle.clap.specs.declared.error.kind.ErrorKind.TheVariants.{OutOfMemory};
ghost use Rattle.front_program.specs.ConsoleWords.{AskForSectors, AskForDevice, AskForMigration};
ghost use Rattle.front_program.specs.ConsoleWords.{AskForOverwrite, AskForSlots, console};
ghost use Rattle.front_program.specs.ConsoleWords.{sectors_option};

use crate::console_settings::Options;
use crate::option_table::{SECTORS, SLOTS, flag, non_zero, option};
use clap::error::ErrorKind;
use clap::{Arg, Command, Error};
use std::alloc::Global;

/// What a script may say.
pub(crate) const SCRIPT: &str = "\
The script comes on standard input, one command a line, and is read to its end before its first line runs:
  format K                    make the device an empty journal of two banks with K slots each, which takes 4K + 39 sectors;
                              what is there is erased
  open J XBITS UPBITS         recover the ledger, with a line of J stations
  post S deposit A M          keep an entry for station S: M units to account A
  post S withdraw A M         the same: M units from account A
  post S transfer A B M       the same: M units from account A to account B
  post S seal A               the same: account A keeps what it holds for good, and no later entry may name it
  turn S                      station S takes its turn with what it holds
  day M                       the stations take M turns, 1 to 100000, each in a thread of its own, and each entry
                              that is held is answered
  bits                        show the line, from which it follows whose turn it is, and how many privileges it has
  balances                    show the accounts and their total
  crash                       cut the power
What is refused, as a turn of a station that has no privilege, is told on a line of its own, and the script goes on.
Stations are numbered from 0, accounts from 1 to 1024. Lines that begin with # are comments.

An example script, which shows that a deposit survives a power loss:
  format 4
  open 3 000 100
  post 0 deposit 1 500
  turn 0
  crash
  open 3 111 110
  balances
";

/// What `clap` tells before this is met.
const OUT_OF_RANGE: &str = "a number is out of range";

/// What `clap` reads from the program's words, of which the first is the program's name; or what it
/// answers to wrong words, to the wish for help, and if there is no memory.
///
/// # Errors
/// What `clap` answers to wrong words, to the wish for help, and out of memory.
pub fn options<'a>(alloc: Global, words: &'a [&'a str]) -> Result<Options<'a>, Error>
    ensures some { IfOk result (λ options. 1 ≤ options.sectors) }
    ensures most { IfOk result (λ options. options.sectors ≤ 4000039) }
    ensures asked { let asked = map (λ word. word.now) words.entry.now in
        IfOk result (λ options. AskForSectors asked options.sectors) }
    ensures device { let asked = map (λ word. word.now) words.entry.now in
        IfOk result (λ options. AskForDevice asked (option_map (λ path. path.now) options.device)) }
    ensures migrate { let asked = map (λ word. word.now) words.entry.now in
        IfOk result (λ options.
        AskForMigration asked (option_map (λ path. path.now) options.migrate)) }
    ensures slots { let asked = map (λ word. word.now) words.entry.now in
        IfOk result (λ options. AskForSlots asked (option_map non_zero_u64_get options.slots)) }
    ensures overwrite { let asked = map (λ word. word.now) words.entry.now in
        IfOk result (λ options. AskForOverwrite asked options.overwrite) }
    ensures slots_within { IfOk result (λ options. IfSome options.slots (λ slots.
        (1 ≤ non_zero_u64_get slots) × (non_zero_u64_get slots ≤ 1000000))) }
    // where the name of the program stands alone
    ensures default { IfOk result (λ options. length words.entry.now ≡ 1 → options.sectors ≡ 64) }
    ensures memory { IfOk result (λ options. length words.entry.now ≡ 1 → options.device ≡ None) }
{
    let mut command = console_command(alloc)?;
    let matches = command.try_get_matches_from_mut(words)?;
    let device = matches.get_str("device");
    let migrate = matches.get_str("migrate");
    let overwrite = matches.get_flag("overwrite");
    let Ok(slots) = SLOTS.given(&matches) else {
        return Err(out_of_range(&mut command));
    };
    let Some(sectors) = SECTORS.number(&matches) else {
        return Err(out_of_range(&mut command));
    };
    Ok(Options {
        device,
        sectors,
        migrate,
        slots: non_zero(slots),
        overwrite,
    })
}

// What is told of a number out of range.
fn out_of_range(command: &mut Command<'_>) -> Error {
    command
        .error(ErrorKind::InvalidValue, OUT_OF_RANGE)
        .unwrap_or_else(Error::from)
}

/// The command line of `turn_console`.
pub(crate) fn console_command<'a>(alloc: Global) -> Result<Command<'a>, Error>
    ensures words { IfOk result (λ command. app_of command ≡ console) }
    ensures memory { IfErr result (λ error. kind_of error ≡ OutOfMemory) }
{
    let command = Command::new(alloc, "turn_console")
        .about("A ledger that stations in a row share, on a device that can lose its power")
        .after_help(SCRIPT)
        .arg(option(
            alloc,
            "device",
            "PATH",
            "The file that is the device; made and grown where it is smaller. Or a disk. Without it the device is in memory",
        ))?
        .arg(sectors_of(alloc))?
        .arg(option(
            alloc,
            "migrate",
            "OLD",
            "A file of layout 1 or 2, whose ledger is copied onto the device before the script is read; it stays as it is",
        ))?
        .arg(SLOTS.arg(
            alloc,
            "How many slots each bank of the device then has, 1 to 1000000",
        ))?
        .arg(flag(
            alloc,
            "overwrite",
            "The device is a disk that may hold anything; `format` erases it",
        ))?;
    Ok(command)
}

fn sectors_of<'a>(alloc: Global) -> Arg<'a>
    ensures rule { rule_of result ≡ sectors_option }
    ensures own { result.global ≡ false }
{
    SECTORS
        .arg(
            alloc,
            "How many sectors of 512 bytes the device has, 1 to 4000039",
        )
        .default_value("64")
}
