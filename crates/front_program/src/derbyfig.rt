//! All of `derbyfig`, over the words and streams that it is handed.
ghost use Rattle.std.specs.Prelude.{◌≡◌, ◌≢◌, ◌≤◌, ◌⊎◌, IsOk, IfErr};
ghost use Rattle.clap.specs.Values.{kind_of};
ghost use Rattle.clap.specs.declared.error.kind.ErrorKind.TheVariants.{DisplayHelp, DisplayVersion};
ghost use Rattle.front_program.specs.Statuses.{of_inspection, status_of};

use crate::faults::Fault;
use crate::invocation::{CopyOptions, Invocation, Origin};
use crate::office_plan::plan_office;
use crate::running::{run_on_device, say};
use crate::status::Status;
use crate::telling::{tell, tell_words, tell_wrong, unwritten};
use crate::words::read_invocation;
use clap::Error;
use device_files::{LockMode, ReadOnlyFile};
use ledger_counters::{RosterPath, is_disk, remove_roster, take_along};
use ledger_file::{CopyPlace, FormatOptions, Original, format_ledger, open_for_copy};
use ledger_folder::{AddedBatches, ArchiveOptions, archive, newest_of};
use ledger_inspection::{InspectionFault, Part, Task, check_archive, inspect};
use ledger_reading::Sound;
use office_service::{Locks, Runtime, ServeOptions, Surroundings, ask_status, close_office, serve};
use std::alloc::Global;
use std::fmt;
use std::fs::{File, Files};
use std::io::{Read, Write};
use std::time::Clock;
use text_streams::WatchedWriter;

/// Runs the program and gives its status, as [`Status::code`] has it. The first of the words is the
/// program's name. A script, and what the terminal of an office says, come from the input of the
/// surroundings. Answers go to the writer, what is told of faults and wrong words to `errors`, of
/// which a fault is ignored; so does the progress of long work, if it is to be shown. The call may
/// wait.
pub fn run_derbyfig<
    R: Runtime,
    I: Read + Send + Drop + 'static,
    O: Write + Send + Drop + 'static,
    L: Locks + Copy + Send + 'static,
    W: Write,
    E: Write,
>(
    rt: &R,
    words: &[&str],
    mut surroundings: Surroundings<I, O, L>,
    writer: &mut W,
    errors: &mut E,
    shows_progress: bool,
) -> u8
    ensures { result ≤ 3 }
{
    let alloc = rt.alloc();
    let request = match read_invocation(alloc, words) {
        Ok(request) => request,
        Err(error) => return tell_error(alloc, error, writer, errors).code(),
    };
    let mut reporter = Reporter { rt, writer };
    let outcome = match request {
        Invocation::Serve(serving) => {
            return serve_counters(rt, &serving, surroundings, reporter.writer, errors).code();
        }
        Invocation::Inspect(wish) => {
            let is_check = matches!(wish.task, Task::Check { .. });
            let looked = inspect(rt, &wish, reporter.writer, errors, shows_progress);
            return ended_looking(alloc, is_check, looked, errors).code();
        }
        Invocation::Run(running) => {
            run_on_device(rt, running, &mut surroundings.input, reporter.writer)
        }
        Invocation::Close { counter, seconds } => reporter.close(counter, seconds),
        Invocation::Status { counter } => reporter.tell_status(counter),
        Invocation::Format { path, formatting } => reporter.make(path, formatting),
        Invocation::Copy(copying) => reporter.copy(copying),
        Invocation::Archive(archiving) => reporter.add_to_archive(archiving),
    };
    ended(alloc, outcome, errors).code()
}

// How a command ended, which is told if it is a fault.
fn ended<E: Write>(alloc: Global, outcome: Result<(), Fault<'_>>, errors: &mut E) -> Status
    ensures done { IsOk outcome.entry → result ≡ Status.Done }
    ensures fault { IfErr outcome.entry (λ fault. result ≡ status_of fault) }
{
    match outcome {
        Ok(()) => Status::Done,
        Err(fault) => {
            tell(alloc, fault, errors);
            fault.status()
        }
    }
}

// How an inspection ended. A refusal that `check` met is its answer, and is told no more.
fn ended_looking<E: Write>(
    alloc: Global,
    is_check: bool,
    outcome: Result<(), InspectionFault<'_>>,
    errors: &mut E,
) -> Status
    ensures done { IsOk outcome.entry → result ≡ Status.Done }
    ensures fault { IfErr outcome.entry (λ fault. result ≡ of_inspection fault) }
{
    match outcome {
        Ok(()) => Status::Done,
        Err(fault) if is_check && fault.is_refusal() => Status::Refused,
        Err(fault) => ended(alloc, Err(Fault::Inspection(fault)), errors),
    }
}

// Keeps an office open, if its words go together.
fn serve_counters<
    R: Runtime,
    I: Read + Send + Drop + 'static,
    O: Write + Send + Drop + 'static,
    L: Locks + Copy + Send + 'static,
    W: Write,
    E: Write,
>(
    rt: &R,
    serving: &ServeOptions<'_>,
    surroundings: Surroundings<I, O, L>,
    writer: &mut W,
    errors: &mut E,
) -> Status {
    let plan = match plan_office(serving) {
        Ok(plan) => plan,
        Err(wrong) => return tell_wrong(rt.alloc(), wrong, errors),
    };
    let served = serve(rt, serving, plan, surroundings, writer);
    ended(rt.alloc(), served.map_err(Fault::from), errors)
}

// What the commands work with that say what was done.
#[derive(Drop)]
struct Reporter<'r, R, W> {
    rt: &'r R,
    writer: &'r mut W,
}

impl<R: Files<File = File> + AllocGlobal + Clock + Clone + Drop, W: Write> Reporter<'_, R, W> {
    // Closes the office that has a counter.
    fn close<'a>(&mut self, counter: &'a str, seconds: u64) -> Result<(), Fault<'a>> {
        close_office(self.rt, counter, seconds)?;
        self.say("closed")
    }

    // Tells how the office stands that has a counter.
    fn tell_status<'a>(&mut self, counter: &'a str) -> Result<(), Fault<'a>> {
        let told = ask_status(self.rt, counter)?;
        self.say(told)
    }

    // Makes an empty ledger.
    fn make<'a>(&mut self, path: &'a str, formatting: FormatOptions) -> Result<(), Fault<'a>> {
        format_ledger(self.rt, path, formatting).map_err(|refusal| Fault::of_ledger(
            path, refusal,
        ))?;
        remove_roster(self.rt, RosterPath::Beside(path))?;
        self.say(format_args!("formatted {}", formatting.slots))
    }

    // Adds to an archive what it lacks.
    fn add_to_archive<'a>(&mut self, archiving: ArchiveOptions<'a>) -> Result<(), Fault<'a>> {
        let AddedBatches { batches, first } = archive(self.rt, archiving)?;
        let ArchiveOptions { ledger, folder } = archiving;
        take_along(
            self.rt,
            RosterPath::Beside(ledger),
            RosterPath::Inside(folder),
        )?;
        self.say(format_args!("archived {batches} from {first}"))
    }

    // Copies a ledger, which stays open meanwhile, and says so.
    fn copy<'a>(&mut self, copying: CopyOptions<'a>) -> Result<(), Fault<'a>> {
        let (done, counters) = match copying.origin {
            Origin::Ledger => ("copied", RosterPath::Beside(copying.old)),
            Origin::Older => ("migrated", RosterPath::Beside(copying.old)),
            Origin::Archive => ("restored", RosterPath::Inside(copying.old)),
        };
        // whoever has it open keeps others from writing it
        let (_file, original) = self.original(copying)?;
        self.put_copy(original, counters, copying)?;
        self.say(format_args!("{done} {}", copying.formatting.slots))
    }

    // What is to be copied, which is found sound first, so that nothing is made if it isn't. Of an
    // archive, which is all found sound, it is the newest file.
    fn original<'a>(
        &self,
        copying: CopyOptions<'a>,
    ) -> Result<(ReadOnlyFile, Original), Fault<'a>> {
        let path = copying.old;
        let (file, original) = match copying.origin {
            Origin::Archive => {
                let Sound { journal, ledger } = newest_of(self.rt, path)?;
                check_archive(self.rt, path)?;
                let next = journal.numbers().next;
                return Ok((journal.into_device(), Original { ledger, next }));
            }
            Origin::Ledger => Original::read(self.rt.alloc(), self.opened(path)?),
            Origin::Older => Original::read_older(self.rt.alloc(), self.opened(path)?),
        };
        match original {
            Ok(original) => Ok((file, original)),
            Err(refusal) => Err(Fault::of_opening(path, refusal)),
        }
    }

    // A ledger that is to be copied.
    fn opened<'a>(&self, path: &'a str) -> Result<ReadOnlyFile, InspectionFault<'a>> {
        ReadOnlyFile::open(self.rt, self.rt.alloc(), path, LockMode::Shared).map_err(
            |fault| InspectionFault::of_file(Part::File(path), fault),
        )
    }

    // Puts a copy of a ledger whose counters are kept there at its path.
    fn put_copy<'a>(
        &self,
        original: Original,
        counters: RosterPath<'a>,
        copying: CopyOptions<'a>,
    ) -> Result<(), Fault<'a>> {
        let CopyOptions {
            path,
            formatting,
            ..
        } = copying;
        let place = open_for_copy(self.rt, original, path, formatting).map_err(
            |refusal| Fault::of_ledger(path, refusal),
        )?;
        let place = self.counters_first(place, counters, path)?;
        let is_made = place.made.is_some();
        match place.write(self.rt) {
            Ok(_) => Ok(()),
            Err(refusal) => {
                self.forget_counters(is_made, path);
                Err(Fault::of_ledger(path, refusal))
            }
        }
    }

    // A new ledger has the counters that are kept there, and has them before it is one: without
    // them an office would give their stations to others. A disk has no file beside it.
    fn counters_first<'a>(
        &self,
        place: CopyPlace<'a, File>,
        from: RosterPath<'a>,
        new: &'a str,
    ) -> Result<CopyPlace<'a, File>, Fault<'a>> {
        if is_disk(self.rt, new) {
            return Ok(place);
        }
        match take_along(self.rt, from, RosterPath::Beside(new)) {
            Ok(()) => Ok(place),
            Err(fault) => {
                let is_made = place.made.is_some();
                place.give_up(self.rt);
                self.forget_counters(is_made, new);
                Err(Fault::from(fault))
            }
        }
    }

    // The counters of a copy that was made and removed again are removed too, as far as the system
    // lets them.
    fn forget_counters(&self, is_made: bool, new: &str) {
        if is_made && !is_disk(self.rt, new) {
            let _ = remove_roster(self.rt, RosterPath::Beside(new));
        }
    }

    // Says what was done on a line of its own.
    fn say<'a, L: fmt::Display + Drop>(&mut self, line: L) -> Result<(), Fault<'a>> {
        say(self.rt.alloc(), line, self.writer)?;
        Ok(())
    }
}

/// Writes what `clap` answers to wrong words, or to the wish for help or the version.
pub(crate) fn tell_error<W: Write, E: Write>(
    alloc: Global,
    error: Error,
    writer: &mut W,
    errors: &mut E,
) -> Status
    ensures wrong { kind_of error ≢ DisplayHelp → kind_of error ≢ DisplayVersion
        → (result ≡ Status.WrongWords) ⊎ (result ≡ Status.Failed) }
{
    let mut output = WatchedWriter::over(writer);
    match tell_words(alloc, error, &mut output, errors) {
        Ok(status) => status,
        Err(_) => unwritten(alloc, output.is_closed(), errors),
    }
}
