//! What is told of an office that has ended.
ghost use Rattle.std.specs.Prelude.{◌≡◌, ◌≢◌, ◌↔◌, false, Err, IsTrue, IfErr, OnOk};
ghost use Rattle.turn_clerk.specs.declared.refusals.TurnRefusal.{TurnRefusal};
ghost use Rattle.office_service.specs.Ends.{HaveEndedWell, NoneFailed, NoneWasRefused};
ghost use Rattle.office_service.specs.Ends.{TellsRefusal, reason_of};

use crate::faults::OfficeFault;
use office_day::StationDay;
use office_sessions::{ClosedOffice, Conversation};
use sector_device::Device;
use station_desk::End;
use std::io::Write;
use text_streams::{Output, StreamFault};
use turn_clerk::{Clerk, TurnRefusal};
use turn_ledger::Entry;

/// Tells how the office ended. If it ended well its clerk comes back.
pub(crate) fn tell_closed<'a, D: Device + Drop, W: Write>(
    closed: ClosedOffice<D>,
    output: &mut Output<'_, W>,
) -> Result<Clerk<D>, OfficeFault<'a>>
    ensures well { OnOk result (HaveEndedWell closed.stations.items) }
    ensures threads { OnOk result (closed.is_abandoned ≡ false) }
{
    tell_end(&closed, output)?;
    Ok(closed.clerk)
}

// Tells how the office ended: its turns, the line, and what was asked and not answered.
fn tell_end<'a, D: Device + Drop, W: Write>(
    closed: &ClosedOffice<D>,
    output: &mut Output<'_, W>,
) -> Result<(), OfficeFault<'a>>
    ensures well { OnOk result (HaveEndedWell closed.now.stations.items) }
    ensures threads { OnOk result (closed.now.is_abandoned ≡ false) }
{
    let line = closed.audit.last;
    let privileges = line.privileges();
    output.line(format_args!("closed after {} turns", closed.turns))?;
    output.line(format_args!("bits {line} privileges {privileges}"))?;
    for (station, day) in closed.stations.iter().enumerate() {
        tell_unanswered(station, day, output)?;
    }
    for (station, conversation) in closed.conversations.iter().enumerate() {
        tell_unheard(station, conversation.unheard(), output)?;
        tell_untold(station, conversation, output)?;
    }
    output.flush()?;
    ended(closed.is_abandoned, closed.stations.as_slice())
}

// Tells of the requests of a station that were submitted and not answered.
fn tell_unanswered<W: Write>(
    station: usize,
    day: &StationDay,
    output: &mut Output<'_, W>,
) -> Result<(), StreamFault> {
    for ask in &day.unanswered {
        let reference = ask.entry.reference();
        output.line(format_args!("unanswered {station} {reference}"))?;
    }
    Ok(())
}

// Tells of the entries that a station's client asked to post too late.
fn tell_unheard<W: Write>(
    station: usize,
    entries: &[Entry],
    output: &mut Output<'_, W>,
) -> Result<(), StreamFault> {
    for entry in entries {
        let reference = entry.reference();
        output.line(format_args!("unanswered {station} {reference}"))?;
    }
    Ok(())
}

// Tells of the answers to entries that weren't written to a station's client.
fn tell_untold<W: Write>(
    station: usize,
    conversation: &Conversation,
    output: &mut Output<'_, W>,
) -> Result<(), StreamFault> {
    for response in conversation.untold() {
        if response.is_answer() {
            output.line(format_args!("untold {station} {response}"))?;
        }
    }
    Ok(())
}

// How an office ended: well, if each station did. A failed device is reported as one: other
// stations, which met it later, name it otherwise. No other end comes alone: a station stops only
// behind one that was refused, and gives up only after 2^64 - 1 refusals in a row.
fn ended<'a>(is_abandoned: bool, stations: &[StationDay]) -> Result<(), OfficeFault<'a>>
    ensures well { OnOk result (HaveEndedWell stations.now) }
    ensures threads { OnOk result (is_abandoned ≡ false) }
    ensures device { (reason : TurnRefusal) → result ≡ Err (OfficeFault.Refused reason)
        → reason ≢ TurnRefusal.Device → NoneFailed stations.now }
{
    if is_abandoned {
        return Err(OfficeFault::Threads);
    }
    if !none_failed(stations) {
        return Err(OfficeFault::Refused(TurnRefusal::Device));
    }
    refusal_of(stations)?;
    if !have_ended_well(stations) {
        return Err(OfficeFault::Threads);
    }
    Ok(())
}

// Whether each station did: all turns were taken, or it was sent home.
fn have_ended_well(stations: &[StationDay]) -> bool
    ensures { IsTrue result ↔ HaveEndedWell stations.now }
{
    stations
        .iter()
        .all(|day| day.end == End::Reached || day.end == End::Closed)
}

// Whether the device failed for no station.
fn none_failed(stations: &[StationDay]) -> bool
    ensures { IsTrue result ↔ NoneFailed stations.now }
{
    stations
        .iter()
        .all(|day| day.end != End::Refused(TurnRefusal::Device))
}

// Why the first station that was refused a turn was refused it.
fn refusal_of<'a>(stations: &[StationDay]) -> Result<(), OfficeFault<'a>>
    ensures none { OnOk result (NoneWasRefused stations.now) }
    ensures refused { IfErr result (TellsRefusal stations.now) }
{
    for day in stations {
        if let Some(refusal) = reason_of(day.end) {
            return Err(OfficeFault::Refused(refusal));
        }
    }
    Ok(())
}

// Why a station was refused its last turn, if it ended by that.
fn reason_of(end: End) -> Option<TurnRefusal>
    ensures { result ≡ reason_of end }
{
    match end {
        End::Refused(reason) => Some(reason),
        End::NotStarted | End::Reached | End::Stopped | End::Tries | End::Closed => None,
    }
}
