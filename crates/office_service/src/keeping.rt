//! An office that is kept open, from its pipes and its device to its end.
ghost use Rattle.std.specs.Prelude.{◌≡◌, ◌≤◌, if◌then◌else◌, min, IsTrue};

use crate::archivist::Archivist;
use crate::counter_fault::CounterFile;
use crate::ending::tell_closed;
use crate::faults::OfficeFault;
use crate::locks::{Locks, SeatedClients};
use crate::pipes::open_pipe;
use crate::runtime::Runtime;
use crate::seating::Seating;
use crate::serving::{CounterFolder, OfficePlan, ServeOptions};
use crate::source::{Source, Target};
use device_files::{FileDevice, FileNumber};
use four_state::{FEWEST_STATIONS, Line, MOST_STATIONS};
use journal_recovery::OpenRefusal;
use ledger_file::{FormatOptions, format_ledger, open_ledger};
use office_sessions::{
    ArchiveState, ClosedOffice, Counter, CounterKind, Identity, Keeper, are_threads_granted,
    keep_open,
};
use sector_device::Device;
use std::alloc::{AllocError, Global};
use std::fs::{File, Files};
use std::io::{Read, Write};
use text_streams::{Output, StreamFault};
use turn_clerk::Clerk;

/// After how many turns an office is closed and opened again, if its banks have as many slots: so
/// many its history holds at most.
pub const SPAN: u64 = 5_000;

/// This number, as a statement; the body does nothing.
pub fn span_in_numbers()
    ensures { SPAN ≡ 5000 }
{}

// How many turns a span has. If the office has an archive, they are no more than a bank has slots,
// so that what isn't archived is in the two banks.
fn turns_of_span(slots: u64, has_archive: bool) -> u64
    ensures fits { IsTrue has_archive → result ≤ slots }
    ensures value { result ≡ if has_archive then min slots 5000 else 5000 }
{
    if has_archive { slots.min(SPAN) } else { SPAN }
}

/// What an office meets beside its files: the streams of the terminal, and who sees the locks of
/// counters' folders.
#[derive(Drop)]
pub struct Surroundings<I: Read, O: Write, L: Locks + Copy> {
    pub input: I,
    pub output: O,
    pub locks: L,
}

// A counter, by pipes or by the terminal.
type AnyCounter<I, O> = Counter<Source<File, I>, Target<File, O>>;

/// Keeps an office open as it is asked for and planned. If it keeps an archive, what that lacks is
/// added before the first turn, whenever the office is closed for a while, and at its end. What is
/// told of it goes to the writer. The call waits until the office is closed.
///
/// # Errors
/// [`OfficeFault`].
pub fn serve<
    'a,
    R: Runtime,
    I: Read + Send + Drop + 'static,
    O: Write + Send + Drop + 'static,
    L: Locks + Copy + Send + 'static,
    W: Write,
>(
    rt: &R,
    serving: &ServeOptions<'a>,
    plan: OfficePlan,
    surroundings: Surroundings<I, O, L>,
    writer: &mut W,
) -> Result<(), OfficeFault<'a>> {
    let Surroundings {
        input,
        output: told,
        locks,
    } = surroundings;
    let mut output = Output::new(rt.alloc(), writer)?;
    let counters = open_counters(rt, serving, input, told)?;
    let office = ready_office(rt, serving, plan, &mut output)?;
    keep_on(rt, office, counters, locks, &mut output)
}

// What an office is opened on, and who keeps its archive.
#[derive(Drop)]
struct Ready<'a, 'r, R> {
    clerk: Clerk<FileDevice>,
    seating: Seating<'a>,
    archivist: Archivist<'a, 'r, R>,
    // How many turns a span has.
    moves: u64,
}

// Opens the archive and the ledger, brings the archive up to that, and gives each counter its
// station.
fn ready_office<'a, 'r, R: Runtime, W: Write>(
    rt: &'r R,
    serving: &ServeOptions<'a>,
    plan: OfficePlan,
    output: &mut Output<'_, W>,
) -> Result<Ready<'a, 'r, R>, OfficeFault<'a>> {
    let mut archivist = Archivist::open(rt, serving)?;
    let (clerk, seating) = open_seated(rt, serving, plan, &mut archivist, output)?;
    let moves = turns_of_span(clerk.slots(), serving.archive.is_some());
    Ok(Ready {
        clerk,
        seating,
        archivist,
        moves,
    })
}

// Opens the ledger, brings the archive up to it, and gives each counter its station. The clerk is
// on a line of all stations.
fn open_seated<'a, R: Runtime, W: Write>(
    rt: &R,
    serving: &ServeOptions<'a>,
    plan: OfficePlan,
    archivist: &mut Archivist<'a, '_, R>,
    output: &mut Output<'_, W>,
) -> Result<(Clerk<FileDevice>, Seating<'a>), OfficeFault<'a>> {
    let device = open_device(rt, serving, plan.formatting, output)?;
    let clerk = archivist.add_of(open_clerk(rt.alloc(), serving.path, device)?)?;
    let seating = seat(rt, serving, clerk.next(), plan, archivist)?;
    let stations = seating.stations(plan.stations);
    Ok((on_line_of(serving.path, clerk, stations)?, seating))
}

// Gives each counter its station, if the system grants the threads, and keeps that in the archive
// too.
fn seat<'a, R: Runtime>(
    rt: &R,
    serving: &ServeOptions<'a>,
    next: u64,
    plan: OfficePlan,
    archivist: &mut Archivist<'a, '_, R>,
) -> Result<Seating<'a>, OfficeFault<'a>> {
    let seating = Seating::begin(rt, serving, next)?;
    let stations = seating.stations(plan.stations);
    if !are_threads_granted(rt, rt.alloc(), stations, seating.seats.len())? {
        return Err(OfficeFault::Threads);
    }
    archivist.learn(&seating)?;
    Ok(seating)
}

// Keeps the office open until it is closed.
fn keep_on<
    'a,
    R: Runtime,
    I: Read + Send + Drop + 'static,
    O: Write + Send + Drop + 'static,
    L: Locks + Copy + Send + 'static,
    W: Write,
>(
    rt: &R,
    office: Ready<'a, '_, R>,
    counters: Vec<AnyCounter<I, O>>,
    locks: L,
    output: &mut Output<'_, W>,
) -> Result<(), OfficeFault<'a>> {
    let mut counters = counters;
    seat_and_tell(rt.alloc(), &office, &mut counters, output)?;
    let Ready {
        clerk,
        mut seating,
        archivist,
        moves,
    } = office;
    let folders = seating.take_folders(rt.alloc());
    let (clients, first) = (SeatedClients { locks, folders }, seating.since());
    match keep_open(
        rt,
        rt.alloc(),
        clerk,
        counters,
        clients,
        first,
        moves,
        archivist,
    ) {
        Ok((closed, archivist)) => {
            let next = closed.clerk.next();
            let _clerk = end(closed, archivist, output)?;
            seating.close(rt, next)
        }
        Err((_, refusal)) => Err(OfficeFault::from(refusal)),
    }
}

// Gives the counters their stations, and tells that the office is open.
fn seat_and_tell<'a, R: Runtime, I: Read + Drop, O: Write + Drop, W: Write>(
    alloc: Global,
    office: &Ready<'a, '_, R>,
    counters: &mut Vec<AnyCounter<I, O>>,
    output: &mut Output<'_, W>,
) -> Result<(), OfficeFault<'a>> {
    seat_counters(alloc, counters, &office.seating)?;
    tell_opened(&office.clerk, output)?;
    Ok(())
}

// Tells that the office is open.
fn tell_opened<D: Device, W: Write>(
    clerk: &Clerk<D>,
    output: &mut Output<'_, W>,
) -> Result<(), StreamFault> {
    let (stations, next, total) = (
        clerk.line().stations(),
        clerk.next(),
        clerk.ledger().total(),
    );
    output.line(format_args!("opened {stations} next {next} total {total}"))?;
    output.flush()
}

// Gives the counters their stations.
fn seat_counters<I: Read + Drop, O: Write + Drop>(
    alloc: Global,
    counters: &mut Vec<AnyCounter<I, O>>,
    seating: &Seating<'_>,
) -> Result<(), AllocError> {
    for (counter, station) in counters.iter_mut().zip(seating.seats.iter()) {
        counter.station = *station;
        counter.identity = seating.identity(alloc, *station)?;
    }
    Ok(())
}

// Tells how the office ended, and adds to its archive what that lacks. If it ended well its clerk
// comes back, once the archive is let go of.
fn end<'a, R: Runtime, W: Write>(
    closed: ClosedOffice<FileDevice>,
    archivist: Archivist<'a, '_, R>,
    output: &mut Output<'_, W>,
) -> Result<Clerk<FileDevice>, OfficeFault<'a>> {
    let mut archivist = archivist;
    end_with(closed, &mut archivist, output)
}

// The same. It only borrows the archivist, so that its ways out have less to drop, and the archive
// is let go of behind it on each of them.
fn end_with<'a, R: Runtime, W: Write>(
    closed: ClosedOffice<FileDevice>,
    archivist: &mut Archivist<'a, '_, R>,
    output: &mut Output<'_, W>,
) -> Result<Clerk<FileDevice>, OfficeFault<'a>> {
    let clerk = tell_closed(closed, output)?;
    if let Some(fault) = archivist.fault() {
        return Err(fault);
    }
    let clerk = archivist.add_of(clerk)?;
    tell_archived(archivist.kept(), output)?;
    Ok(clerk)
}

// Tells how far the archive is, if there is one.
fn tell_archived<W: Write>(
    archive: ArchiveState,
    output: &mut Output<'_, W>,
) -> Result<(), StreamFault> {
    if let ArchiveState::UpTo(next) = archive {
        output.line(format_args!("archived {next}"))?;
        output.flush()?;
    }
    Ok(())
}

// The counters, each by its pipes, and the terminal behind them, before they have their stations.
fn open_counters<'a, R: Files<File = File> + AllocGlobal, I: Read + Drop, O: Write + Drop>(
    rt: &R,
    serving: &ServeOptions<'a>,
    input: I,
    output: O,
) -> Result<Vec<AnyCounter<I, O>>, OfficeFault<'a>> {
    let mut counters = Vec::with_capacity(rt.alloc(), serving.counters.len())?;
    open_folders(rt, serving, &mut counters)?;
    if serving.terminal {
        let (input, output) = (Source::Terminal(input), Target::Terminal(output));
        let counter = unseated(rt.alloc(), input, output, CounterKind::Terminal, false);
        counters.push(counter).or(Err(OfficeFault::Memory))?;
    }
    Ok(counters)
}

// The counters of the folders, behind those that are there.
fn open_folders<'a, R: Files<File = File> + AllocGlobal, I: Read + Drop, O: Write + Drop>(
    rt: &R,
    serving: &ServeOptions<'a>,
    counters: &mut Vec<AnyCounter<I, O>>,
) -> Result<(), OfficeFault<'a>> {
    let mut opened = Vec::new(rt.alloc());
    for CounterFolder { folder, .. } in &serving.counters {
        let counter = open_counter(rt, folder, serving.hello, &mut opened)?;
        counters.push(counter).or(Err(OfficeFault::Memory))?;
    }
    Ok(())
}

// The counter of a folder.
fn open_counter<'a, R: Files<File = File> + AllocGlobal, I: Read, O: Write>(
    rt: &R,
    folder: &'a str,
    awaits_hello: bool,
    opened: &mut Vec<FileNumber>,
) -> Result<AnyCounter<I, O>, OfficeFault<'a>> {
    let input = open_pipe(rt, folder, CounterFile::In, opened)?;
    let output = open_pipe(rt, folder, CounterFile::Out, opened)?;
    let (input, output) = (Source::Pipe(input), Target::Pipe(output));
    Ok(unseated(rt.alloc(), input, output, CounterKind::Pipes, awaits_hello))
}

// A counter that has no station yet.
fn unseated<I: Read, O: Write>(
    alloc: Global,
    input: Source<File, I>,
    output: Target<File, O>,
    kind: CounterKind,
    awaits_hello: bool,
) -> AnyCounter<I, O> {
    Counter {
        station: 0,
        identity: Identity::nobody(alloc),
        input,
        output,
        kind,
        awaits_hello,
    }
}

// The device, formatted first if that is asked for.
fn open_device<'a, R: Files<File = File> + AllocGlobal, W: Write>(
    rt: &R,
    serving: &ServeOptions<'a>,
    formatting: Option<FormatOptions>,
    output: &mut Output<'_, W>,
) -> Result<FileDevice, OfficeFault<'a>> {
    let path = serving.path;
    let opened = match formatting {
        Some(formatting) => format_ledger(rt, path, formatting),
        None => open_ledger(rt, path, serving.sectors.unwrap_or(0)),
    };
    let device = opened.map_err(|refusal| OfficeFault::of_file(path, refusal))?;
    if let Some(FormatOptions { slots, .. }) = formatting {
        output.line(format_args!("formatted {slots}"))?;
        // whatever keeps the office from being opened, the ledger is made
        output.flush()?;
    }
    Ok(device)
}

// The clerk of the ledger on the device, on a line of the fewest stations.
fn open_clerk<'a, D: Device + Drop>(
    alloc: Global,
    path: &'a str,
    device: D,
) -> Result<Clerk<D>, OfficeFault<'a>> {
    match Clerk::open(alloc, device, first_line(FEWEST_STATIONS)?) {
        Ok(clerk) => Ok(clerk),
        Err((_, refusal)) => Err(OfficeFault::NoLedger(path, refusal)),
    }
}

// The clerk on a line of so many stations. One that was just opened has met no fault.
fn on_line_of<'a, D: Device + Drop>(
    path: &'a str,
    clerk: Clerk<D>,
    stations: u64,
) -> Result<Clerk<D>, OfficeFault<'a>> {
    let begun = clerk.begin_anew(first_line(stations)?);
    begun.or(Err(OfficeFault::NoLedger(path, OpenRefusal::Device)))
}

// The line that an office begins with: any would do, since it heals. On this one the bottom station
// alone is privileged.
fn first_line<'a>(stations: u64) -> Result<Line, OfficeFault<'a>> {
    let bits = [false; MOST_STATIONS as usize];
    let count = stations.min(MOST_STATIONS) as usize;
    match Line::from_bits(stations, &bits[..count], &bits[..count]) {
        Ok(line) => Ok(line),
        Err(refusal) => Err(OfficeFault::Line(refusal)),
    }
}
