//! The words of `derbyfig`.
ghost use Rattle.std.specs.Prelude.{◌≤◌, IfOk};
ghost use Rattle.std.specs.Int.NonZero.{non_zero_u64_get};
ghost use Rattle.front_program.specs.Invocations.{IsWithin};

use crate::commands::{Verb, derbyfig_command};
use crate::invocation::{CopyOptions, Invocation, Origin, ScriptFile, ScriptOptions};
use crate::option_table::{
    ACCOUNT, AT, FORMAT, FROM, REFERENCE, SECONDS, SECTORS, SLOTS, STATIONS, non_zero,
};
use crate::wrong_words::WrongWords;
use clap::error::ErrorKind;
use clap::{ArgMatches, Command, Error};
use device_files::LockMode;
use ledger_counters::{is_name, name_of};
use ledger_file::FormatOptions;
use ledger_folder::ArchiveOptions;
use ledger_inspection::{Date, Format, Inspection, JournalWish, Selection, Task};
use office_service::{CounterFolder, ServeOptions, TERMINAL};
use std::alloc::{AllocError, Global};

/// What the words ask for, of which the first is the program's name; or what `clap` answers to
/// wrong words, to the wish for help or the version, and if there is no memory.
///
/// # Errors
/// What `clap` answers to wrong words, to the wish for help or the version, and out of memory.
pub fn read_invocation<'a>(alloc: Global, words: &'a [&'a str]) -> Result<Invocation<'a>, Error>
    ensures within { IfOk result IsWithin }
{
    let mut command = derbyfig_command(alloc)?;
    let matches = command.try_get_matches_from_mut(words)?;
    match requested(alloc, &matches) {
        Ok(request) => Ok(request),
        Err(wrong) => Err(told_of(alloc, wrong, &mut command).unwrap_or_else(Error::from)),
    }
}

// What is told of wrong words.
fn told_of(
    alloc: Global,
    wrong: WrongWords,
    command: &mut Command<'_>,
) -> Result<Error, AllocError> {
    if wrong == WrongWords::Memory {
        return Err(AllocError);
    }
    let sentence = format!(in alloc; "{wrong}")?;
    command.error(ErrorKind::InvalidValue, sentence.as_str())
}

fn requested<'a>(alloc: Global, matches: &ArgMatches<'a>) -> Result<Invocation<'a>, WrongWords>
    ensures within { IfOk result IsWithin }
{
    let (name, options) = matches.subcommand().ok_or(WrongWords::Undeclared)?;
    match Verb::named(name).ok_or(WrongWords::Undeclared)? {
        Verb::Run => running(options),
        Verb::Serve => serving(alloc, options),
        Verb::Close => closing(options),
        Verb::Status => Ok(Invocation::Status {
            counter: path(options, "COUNTER")?,
        }),
        Verb::Check => {
            let quiet = options.get_flag("quiet");
            looking(alloc, options, Task::Check { quiet })
        }
        Verb::Journal => looking(alloc, options, printing(options)?),
        Verb::Balances => looking(alloc, options, balancing(options)?),
        Verb::Map => looking(alloc, options, Task::Map),
        Verb::Format => making(options),
        Verb::Copy => copying(options, Origin::Ledger),
        Verb::Archive => archiving(options),
        Verb::Restore => copying(options, Origin::Archive),
        Verb::Migrate => copying(options, Origin::Older),
    }
}

// A path that has to be there.
fn path<'a>(options: &ArgMatches<'a>, name: &str) -> Result<&'a str, WrongWords> {
    options.get_str(name).ok_or(WrongWords::Undeclared)
}

fn running<'a>(options: &ArgMatches<'a>) -> Result<Invocation<'a>, WrongWords>
    ensures within { IfOk result IsWithin }
{
    let file = options.get_str("FILE").map(|path| ScriptFile {
        path,
        overwrite: false,
        older: None,
        noted: true,
    });
    let sectors = SECTORS.given(options)?;
    Ok(Invocation::Run(ScriptOptions { file, sectors }))
}

fn serving<'a>(alloc: Global, options: &ArgMatches<'a>) -> Result<Invocation<'a>, WrongWords>
    ensures within { IfOk result IsWithin }
{
    let path = path(options, "FILE")?;
    let sectors = SECTORS.given(options)?;
    let stations = STATIONS.given(options)?;
    let format = non_zero(FORMAT.given(options)?);
    let terminal = options.get_flag("terminal");
    Ok(Invocation::Serve(ServeOptions {
        path,
        sectors,
        counters: counters(alloc, options, terminal)?,
        counters_file: options.get_str("counters-file"),
        counters_anew: options.get_flag("counters-anew"),
        hello: !options.get_flag("no-hello"),
        terminal,
        stations,
        format,
        overwrite: options.get_flag("overwrite"),
        archive: options.get_str("archive"),
        copies: options.get_str("copies"),
    }))
}

// The counters of an office, by names that differ, with that of whoever runs it behind the others.
fn counters<'a>(
    alloc: Global,
    options: &ArgMatches<'a>,
    has_terminal: bool,
) -> Result<Vec<CounterFolder<'a>>, WrongWords> {
    let mut counters = Vec::new(alloc);
    for word in options.get_strs("counter").unwrap_or(&[]) {
        add_counter(&mut counters, word, has_terminal)?;
    }
    if let Some(word) = options.get_str("control") {
        add_counter(&mut counters, word, has_terminal)?;
    }
    Ok(counters)
}

// Adds the counter of a word, whose name is another one than those before.
fn add_counter<'a>(
    counters: &mut Vec<CounterFolder<'a>>,
    word: &'a str,
    has_terminal: bool,
) -> Result<(), WrongWords> {
    let (name, folder) = name_of(word);
    if !is_name(name) {
        return Err(WrongWords::NoName);
    }
    let is_terminal = has_terminal && name == TERMINAL;
    if is_terminal || counters.iter().any(|other| other.name == name) {
        return Err(WrongWords::SameName);
    }
    counters.push(CounterFolder { name, folder })?;
    Ok(())
}

// How long an office may take to close, unless that is said.
const PATIENCE: u64 = 60;

fn closing<'a>(options: &ArgMatches<'a>) -> Result<Invocation<'a>, WrongWords>
    ensures within { IfOk result IsWithin }
{
    let counter = path(options, "COUNTER")?;
    let seconds = SECONDS.given(options)?.unwrap_or(PATIENCE);
    Ok(Invocation::Close { counter, seconds })
}

fn making<'a>(options: &ArgMatches<'a>) -> Result<Invocation<'a>, WrongWords>
    ensures within { IfOk result IsWithin }
{
    Ok(Invocation::Format {
        path: path(options, "FILE")?,
        formatting: formatting(options)?,
    })
}

fn formatting(options: &ArgMatches<'_>) -> Result<FormatOptions, WrongWords>
    ensures slots { IfOk result (λ formatting. non_zero_u64_get formatting.slots ≤ 1000000) }
{
    Ok(FormatOptions {
        slots: non_zero(SLOTS.given(options)?).ok_or(WrongWords::OutOfRange)?,
        sectors: 0,
        overwrite: options.get_flag("overwrite"),
    })
}

// What is to be copied, but not onto itself.
fn copying<'a>(options: &ArgMatches<'a>, origin: Origin) -> Result<Invocation<'a>, WrongWords>
    ensures within { IfOk result IsWithin }
{
    let (old, path) = (path(options, origin.word())?, path(options, "NEW")?);
    if old == path {
        return Err(WrongWords::NewIs(origin));
    }
    Ok(Invocation::Copy(CopyOptions {
        old,
        origin,
        path,
        formatting: formatting(options)?,
    }))
}

fn archiving<'a>(options: &ArgMatches<'a>) -> Result<Invocation<'a>, WrongWords>
    ensures within { IfOk result IsWithin }
{
    Ok(Invocation::Archive(ArchiveOptions {
        ledger: path(options, "LEDGER")?,
        folder: path(options, "FOLDER")?,
    }))
}

fn looking<'a>(
    alloc: Global,
    options: &ArgMatches<'a>,
    task: Task,
) -> Result<Invocation<'a>, WrongWords>
    ensures within { IfOk result IsWithin }
{
    Ok(Invocation::Inspect(Inspection {
        paths: files(alloc, options)?,
        locking: locking(options),
        task,
    }))
}

fn locking(options: &ArgMatches<'_>) -> LockMode {
    if options.get_flag("unlocked") {
        LockMode::Unlocked
    } else {
        LockMode::Shared
    }
}

// The files among the words.
fn files<'a>(alloc: Global, options: &ArgMatches<'a>) -> Result<Vec<&'a str>, WrongWords> {
    let mut files = Vec::new(alloc);
    if let Some(given) = options.get_strs("FILE") {
        files.extend_from_slice(given).or(Err(WrongWords::Memory))?;
    }
    Ok(files)
}

fn printing(options: &ArgMatches<'_>) -> Result<Task, WrongWords> {
    Ok(Task::Journal(JournalWish {
        selection: selection(options)?,
        format: format(options)?,
        date: date(options)?,
    }))
}

fn balancing(options: &ArgMatches<'_>) -> Result<Task, WrongWords> {
    Ok(Task::Balances {
        format: format(options)?,
        date: date(options)?,
        at: AT.given(options)?,
    })
}

fn selection(options: &ArgMatches<'_>) -> Result<Selection, WrongWords> {
    let (account, reference) = (account(options)?, REFERENCE.given(options)?);
    Ok(Selection {
        from: FROM.given(options)?.unwrap_or(0),
        account,
        reference,
        whole: options.get_flag("whole") || account.is_none() && reference.is_none(),
    })
}

fn account(options: &ArgMatches<'_>) -> Result<Option<u32>, WrongWords> {
    let Some(number) = ACCOUNT.given(options)? else {
        return Ok(None);
    };
    let account = u32::try_from(number).or(Err(WrongWords::OutOfRange))?;
    Ok(Some(account))
}

fn format(options: &ArgMatches<'_>) -> Result<Format, WrongWords> {
    let name = options.get_str("as").ok_or(WrongWords::Undeclared)?;
    Format::named(name).ok_or(WrongWords::Undeclared)
}

fn date(options: &ArgMatches<'_>) -> Result<Date, WrongWords> {
    let text = options.get_str("date").ok_or(WrongWords::NoDate)?;
    text.parse::<Date>().or(Err(WrongWords::NoDate))
}
