//! A clerk that a script drives.
ghost use Rattle.std.specs.Prelude.{◌≡◌, ◌≢◌, ◌≤◌, ◌<◌, ◌⊎◌, ◌↔◌, ◌∷◌, ◌++◌, [], length, min};
ghost use Rattle.std.specs.Prelude.{IsOk, IfOk, IfErr, IsErrAnd, OnOk, OnErr, replicate, Err};
ghost use Rattle.sector_device.specs.Device.{handed_on};
ghost use Rattle.sector_device.specs.Crash.{AreLooks, IsDurable};
ghost use Rattle.four_state.specs.Configuration.{stations};
ghost use Rattle.text_grammar.specs.Bits.{bits_of};
ghost use Rattle.journal_recovery.specs.Recovery.{RecoversTo};
ghost use Rattle.journal_recovery.specs.Refused.{RecoveryRefuses};
ghost use Rattle.turn_clerk.specs.Clerk.{KeepsHistory, LeavesState, LeavesPrefix, present_state};
ghost use Rattle.turn_clerk.specs.Opened.{IsOpened};
ghost use Rattle.front_scripts.specs.Clerk.{held_for, holding, line_of, HasTurned};
ghost use Rattle.front_scripts.specs.Clerk.{IsOpeningRefusal, IfOpening};

use crate::refusals::Refusal;
use four_state::{Line, LineRefusal};
use journal_recovery::OpenRefusal;
use office_day::HeldEntries;
use sector_device::Device;
use std::alloc::{AllocError, Global};
use std::marker::Model;
use text_grammar::Bits;
use turn_clerk::{Clerk, Turn, TurnRefusal};
use turn_ledger::{Entry, Ledger};

/// A clerk on a device, and for each station of its line the entries that are held for its turn.
/// The clerk stands on the heap, since a console is handed on from command to command.
#[derive(Drop)]
pub struct ScriptedClerk<D: Device> {
    pub(crate) clerk: Box<Clerk<D>>,
    pub(crate) held: Vec<HeldEntries>,
}

impl<D: Device> Model for ScriptedClerk<D> {
    ghost use Rattle.std.specs.Prelude.{◌≡◌, ◌≤◌, length};
    ghost use Rattle.std.specs.Box.{box_value};
    ghost use Rattle.four_state.specs.Configuration.{stations};
    ghost use Rattle.front_scripts.specs.Clerk.{ScriptedState};

    ghost Value = { ScriptedState D };

    ghost view = { λ s. record { clerk = box_value s.clerk; held = s.held.items } };

    ghost invariant = { λ s. (length s.held.items ≡ stations (box_value s.clerk).line)
        × (length s.held.items ≤ 64) };
}

impl<D: Device> ScriptedClerk<D> {
    /// Opens a clerk on the device, with a line of these bits, or tells why not and hands the
    /// device back.
    pub fn open(
        alloc: Global,
        device: D,
        stations: u64,
        x: Bits<'_>,
        up: Bits<'_>,
    ) -> Result<ScriptedClerk<D>, (D, Refusal)>
        ensures stations { IsErrAnd result (λ e. e.1 ≡ Refusal.Line LineRefusal.Stations)
            ↔ ((stations < 2) ⊎ (64 < stations)) }
        ensures length { IsErrAnd result (λ e. e.1 ≡ Refusal.Line LineRefusal.Length)
            ↔ (((2 ≤ stations) × (stations ≤ 64))
            × ((length (bits_of x.entry) ≢ stations) ⊎ (length (bits_of up.entry) ≢ stations))) }
        ensures untouched { IfErr result (λ e. (refusal : LineRefusal)
            → e.1 ≡ Refusal.Line refusal → e.0 ≡ device) }
        ensures refusals { IfErr result (λ e. IsOpeningRefusal e.1) }
        ensures opened { IfOk result (λ opened.
            IsOpened (line_of (bits_of x.entry) (bits_of up.entry) stations) opened.clerk) }
        ensures held { IfOk result (λ opened. opened.held ≡ replicate stations []) }

        // As the opening of a clerk.
        ensures looks { let after = handed_on (λ opened. opened.clerk.journal.device) result in
            AreLooks (D.state device) (D.state after)
            (IsErrAnd result (λ e. e.1 ≡ Refusal.Open OpenRefusal.Device)) }
        ensures settled { (D.state device).honest → IfOk result (λ opened.
            IsDurable (D.state opened.clerk.journal.device)) }
        ensures recovers { (D.state device).honest → IfOk result (λ opened.
            RecoversTo (present_state opened.clerk) (D.state device).reads) }
        ensures after_a_crash { (D.state device).honest
            → IfOk result (λ opened. LeavesState D.state opened.clerk) }
        ensures refused { (D.state device).honest → IfErr result (λ e. IfOpening e.1 (λ refusal.
            refusal ≢ OpenRefusal.Memory → refusal ≢ OpenRefusal.Device
            → RecoveryRefuses (D.state device).reads refusal)) }
        ensures refused_settled { (D.state device).honest → IfErr result (λ e. IfOpening e.1 (λ refusal.
            refusal ≢ OpenRefusal.Memory → refusal ≢ OpenRefusal.Device
            → IsDurable (D.state e.0))) }
    {
        let line = match line_written(stations, x, up) {
            Ok(line) => line,
            Err(refusal) => return Err((device, Refusal::Line(refusal))),
        };
        let Ok(held) = nothing_held(alloc, line.stations()) else {
            return Err((device, Refusal::Open(OpenRefusal::Memory)));
        };
        let clerk = match Clerk::open(alloc, device, line) {
            Ok(clerk) => clerk,
            Err((device, refusal)) => return Err((device, Refusal::Open(refusal))),
        };
        match Box::new(alloc, clerk) {
            Ok(clerk) => Ok(ScriptedClerk { clerk, held }),
            Err(failed) => Err((
                failed.value.into_device(),
                Refusal::Open(OpenRefusal::Memory),
            )),
        }
    }

    /// Keeps an entry for the station, and answers how many are then held for it.
    pub fn post(&mut self, station: u64, entry: Entry) -> Result<usize, Refusal>
        ensures no_station { (result ≡ Err Refusal.NoStation)
            ↔ (stations self.old.clerk.line ≤ station) }
        ensures full { (result ≡ Err Refusal.HeldFull)
            ↔ ((station < stations self.old.clerk.line)
            × (16 ≤ length (held_for self.old.held station))) }
        ensures ok { IsOk result ↔ ((station < stations self.old.clerk.line)
            × (length (held_for self.old.held station) < 16)) }
        ensures held { OnOk result (self.new.held
            ≡ holding self.old.held station (held_for self.old.held station ++ entry ∷ [])) }
        ensures count { IfOk result (λ count. count ≡ length (held_for self.new.held station)) }
        ensures clerk { self.new.clerk ≡ self.old.clerk }
        ensures untouched { OnErr result (self.new ≡ self.old) }
    {
        match self.held.get_mut(station_number(station) as usize) {
            Some(held) => held.keep(entry).ok_or(Refusal::HeldFull),
            None => Err(Refusal::NoStation),
        }
    }

    /// Takes the turn of a station with what it holds, which is empty then; the turn is the last of
    /// the history. A refused turn leaves what is held.
    pub fn turn(&mut self, station: u64) -> Result<(), TurnRefusal>
        ensures answered { HasTurned D.state self.old.clerk station
            (held_for self.old.held station) result self.new.clerk }
        ensures spent { OnOk result (self.new.held ≡ holding self.old.held station []) }
        ensures kept { OnErr result (self.new.held ≡ self.old.held) }

        // On an honest device.
        ensures acknowledged { (D.state self.old.clerk.journal.device).honest
            → OnOk result (LeavesState D.state self.new.clerk) }
        ensures prefix { (D.state self.old.clerk.journal.device).honest
            → LeavesPrefix D.state self.old.clerk self.new.clerk }
    {
        let station = station_number(station);
        let Some(held) = self.held.get_mut(station as usize) else {
            self.clerk.take_turn(station, &[])?;
            return Ok(());
        };
        self.clerk.take_turn(station, held.as_slice())?;
        held.clear();
        Ok(())
    }

    /// Whether the device has failed.
    pub fn is_faulted(&self) -> bool
        ensures { result ≡ self.now.clerk.journal.faulted }
    {
        self.clerk.is_faulted()
    }

    /// The turns since the opening, or since the last day began.
    pub fn history(&self) -> &[Turn]
        ensures value { result.now ≡ self.now.clerk.history }
        ensures legal { KeepsHistory self.now.clerk }
    {
        self.clerk.history()
    }

    /// The line as it stands.
    pub fn line(&self) -> Line
        ensures value { result ≡ self.now.clerk.line }
        ensures one_each { length self.now.held ≡ stations result }
    {
        self.clerk.line()
    }

    /// The ledger as it stands.
    pub fn ledger(&self) -> &Ledger
        ensures { result.now ≡ self.now.clerk.ledger }
    {
        self.clerk.ledger()
    }

    /// The sequence number of the next record.
    pub fn next(&self) -> u64
        ensures { result ≡ self.now.clerk.journal.next }
    {
        self.clerk.next()
    }

    /// The device, as it is. What was held is forgotten.
    pub fn into_device(self) -> D
        ensures { result ≡ self.clerk.journal.device }
    {
        let ScriptedClerk { clerk, .. } = self;
        Box::into_inner(clerk).into_device()
    }
}

// The line of these bits, or why they are those of none.
fn line_written(n: u64, x: Bits<'_>, up: Bits<'_>) -> Result<Line, LineRefusal>
    ensures stations { (result ≡ Err LineRefusal.Stations) ↔ ((n < 2) ⊎ (64 < n)) }
    ensures length { (result ≡ Err LineRefusal.Length) ↔ (((2 ≤ n) × (n ≤ 64))
        × ((length (bits_of x.entry) ≢ n) ⊎ (length (bits_of up.entry) ≢ n))) }
    ensures ok { IsOk result ↔ (((2 ≤ n) × (n ≤ 64))
        × ((length (bits_of x.entry) ≡ n) × (length (bits_of up.entry) ≡ n))) }
    ensures bits { IfOk result (λ line. line ≡ line_of (bits_of x.entry) (bits_of up.entry) n) }
{
    Line::from_bits(n, x.kept().as_slice(), up.kept().as_slice())
}

// The station that a script's number means to a clerk. A line has 64 stations at most, so a number
// over 255 is that of no station, and so is 255.
fn station_number(number: u64) -> u8
    ensures { result ≡ min number 255 }
{
    number.min(255) as u8
}

// Nothing held, for each of so many stations.
fn nothing_held(alloc: Global, stations: u8) -> Result<Vec<HeldEntries>, AllocError>
    ensures { IfOk result (λ held. held.items ≡ replicate stations []) }
{
    let mut held = Vec::with_capacity(alloc, stations as usize)?;
    for _ in 0..stations {
        held.push(HeldEntries::new(alloc)?)?;
    }
    Ok(held)
}
