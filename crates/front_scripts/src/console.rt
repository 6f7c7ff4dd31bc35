//! Runs the commands of a script, one after another.
ghost use Rattle.std.specs.Prelude.{◌≡◌, ◌≢◌, ℕ, true, false, ⊤, IfOk, IfErr};
ghost use Rattle.text_grammar.specs.declared.faults.LineFault.{LineFault};
ghost use Rattle.text_grammar.specs.Bits.{bits_of};
ghost use Rattle.sector_device.specs.Crash.{WasLookedAt};
ghost use Rattle.front_scripts.specs.declared.faults.ScriptFault.TheVariants.{Line};
ghost use Rattle.front_scripts.specs.Clerk.{line_of};
ghost use Rattle.front_scripts.specs.Console.{ByOffice, IsClosedAnd, IsOpenAnd, device_of};
ghost use Rattle.front_scripts.specs.Console.{HasPosted, HasAskedForTurn, HasOpened, HasHadDay};
ghost use Rattle.front_scripts.specs.Console.{HasLostPower, WasKept, HasRun};

use crate::faults::ScriptFault;
use crate::power::PowerLoss;
use crate::printing::{print_balances, print_day, print_line, print_refusal, print_turn};
use crate::refusals::Refusal;
use crate::script_day::told_as;
use crate::scripted_clerk::ScriptedClerk;
use gate_journal::format;
use sector_device::Device;
use std::alloc::Global;
use std::io::Write;
use std::num::NonZeroU64;
use std::sync::Wait;
use std::thread::Threads;
use text_grammar::{Bits, Command};
use text_streams::{Output, StreamFault};
use turn_clerk::TurnRefusal;
use turn_ledger::Entry;

/// The console where a script has come to: with its device alone, or with an office open on it.
#[derive(Drop)]
pub enum Console<D: Device> {
    /// No office is open; this is the device.
    Closed(D),
    /// An office is open, with its clerk.
    Open(ScriptedClerk<D>),
}

impl<D: PowerLoss + Drop> Console<D> {
    /// Runs a command and prints what it answers. A fault is that of the output, or running out of
    /// memory in a day.
    pub fn run<W: Write, R: Threads + Wait + Sync>(
        mut self,
        rt: &R,
        alloc: Global,
        command: Command<'_>,
        output: &mut Output<'_, W>,
    ) -> Result<Console<D>, ScriptFault>
        ensures fault { IfErr result (λ fault. (line : ℕ) (cause : LineFault)
            → fault ≢ Line line cause) }
        ensures ran { IfOk result (HasRun D.state D.loses command.entry self) }
    {
        match command {
            Command::Format { slots } => self.format(slots, output)?,
            Command::Open { stations, x, up } => {
                return Ok(self.open(alloc, stations, x, up, output)?);
            }
            Command::Post { station, entry } => self.post(station, entry, output)?,
            Command::Turn { station } => self.turn(station, output)?,
            Command::Bits => self.bits(output)?,
            Command::Balances => self.balances(output)?,
            Command::Crash => return Ok(self.crash(alloc, output)?),
            Command::Day { moves } => return self.day(rt, alloc, moves, output),
        }
        Ok(self)
    }

    fn format<W: Write>(
        &mut self,
        slots: NonZeroU64,
        output: &mut Output<'_, W>,
    ) -> Result<(), StreamFault>
        ensures { ByOffice self.old (λ _. IsClosedAnd self.new (λ _. ⊤))
            (λ clerk. self.new ≡ Console.Open clerk) }
    {
        let Console::Closed(device) = self else {
            return print_refusal(Refusal::OfficeOpen, output);
        };
        match format(device, slots.get()) {
            Ok(()) => output.line(format_args!("formatted {slots}")),
            Err(refusal) => print_refusal(Refusal::Format(refusal), output),
        }
    }

    fn open<W: Write>(
        self,
        alloc: Global,
        stations: u64,
        x: Bits<'_>,
        up: Bits<'_>,
        output: &mut Output<'_, W>,
    ) -> Result<Console<D>, StreamFault>
        ensures open_stays { IfOk result (λ console.
            ByOffice self (λ _. ⊤) (λ clerk. console ≡ Console.Open clerk)) }
        ensures opened { IfOk result (λ console. ByOffice self (λ device. ByOffice console
            (λ after. WasLookedAt (D.state device) (D.state after))
            (HasOpened D.state device (line_of (bits_of x.entry) (bits_of up.entry) stations)
            stations)) (λ _. ⊤)) }
    {
        let device = match self {
            Console::Closed(device) => device,
            open => {
                print_refusal(Refusal::OfficeOpen, output)?;
                return Ok(open);
            }
        };
        match ScriptedClerk::open(alloc, device, stations, x, up) {
            Ok(clerk) => {
                let next = clerk.next();
                let total = clerk.ledger().total();
                output.line(format_args!("opened {stations} next {next} total {total}"))?;
                Ok(Console::Open(clerk))
            }
            Err((device, refusal)) => {
                print_refusal(refusal, output)?;
                Ok(Console::Closed(device))
            }
        }
    }

    fn post<W: Write>(
        &mut self,
        station: u64,
        entry: Entry,
        output: &mut Output<'_, W>,
    ) -> Result<(), StreamFault>
        ensures posted { ByOffice self.old (λ device. self.new ≡ Console.Closed device)
            (λ clerk. IsOpenAnd self.new (HasPosted clerk station entry)) }
    {
        let Console::Open(clerk) = self else {
            return print_refusal(Refusal::NoOffice, output);
        };
        match clerk.post(station, entry) {
            Ok(count) => output.line(format_args!("held {station} {count}")),
            Err(refusal) => print_refusal(refusal, output),
        }
    }

    fn turn<W: Write>(
        &mut self,
        station: u64,
        output: &mut Output<'_, W>,
    ) -> Result<(), StreamFault>
        ensures turned { ByOffice self.old (λ device. self.new ≡ Console.Closed device)
            (λ clerk. IsOpenAnd self.new (HasAskedForTurn D.state clerk station)) }
    {
        let Console::Open(clerk) = self else {
            return print_refusal(Refusal::NoOffice, output);
        };
        let answer = clerk.turn(station);
        print_answer(answer, clerk, output)?;
        // an answer is worth little while it lies in a buffer
        output.flush()
    }

    fn bits<W: Write>(&self, output: &mut Output<'_, W>) -> Result<(), StreamFault> {
        match self {
            Console::Open(clerk) => print_line(clerk.line(), output),
            Console::Closed(_) => print_refusal(Refusal::NoOffice, output),
        }
    }

    fn balances<W: Write>(&self, output: &mut Output<'_, W>) -> Result<(), StreamFault> {
        match self {
            Console::Open(clerk) => print_balances(clerk.ledger(), output),
            Console::Closed(_) => print_refusal(Refusal::NoOffice, output),
        }
    }

    fn day<W: Write, R: Threads + Wait + Sync>(
        self,
        rt: &R,
        alloc: Global,
        moves: u64,
        output: &mut Output<'_, W>,
    ) -> Result<Console<D>, ScriptFault>
        ensures fault { IfErr result (λ fault. (line : ℕ) (cause : LineFault)
            → fault ≢ Line line cause) }
        ensures closed_stays { IfOk result (λ console.
            ByOffice self (λ device. console ≡ Console.Closed device) (λ _. ⊤)) }
        ensures faulted_stays { IfOk result (λ console. ByOffice self (λ _. ⊤) (λ clerk.
            clerk.clerk.journal.faulted ≡ true → console ≡ Console.Open clerk)) }
        ensures day { IfOk result (λ console. ByOffice self (λ _. ⊤) (λ clerk.
            clerk.clerk.journal.faulted ≡ false
            → ByOffice console (WasKept D.state clerk) (HasHadDay D.state clerk moves))) }
    {
        let clerk = match self {
            Console::Open(clerk) => clerk,
            closed => {
                print_refusal(Refusal::NoOffice, output)?;
                return Ok(closed);
            }
        };
        if clerk.is_faulted() {
            print_refusal(Refusal::Turn(TurnRefusal::Faulted), output)?;
            return Ok(Console::Open(clerk));
        }
        match clerk.day(rt, alloc, moves) {
            Ok((clerk, report)) => {
                print_day(clerk.history(), &report, output)?;
                output.flush()?;
                Ok(Console::Open(clerk))
            }
            Err((device, refusal)) => {
                print_refusal(told_as(refusal)?, output)?;
                Ok(Console::Closed(device))
            }
        }
    }

    fn crash<W: Write>(
        self,
        alloc: Global,
        output: &mut Output<'_, W>,
    ) -> Result<Console<D>, StreamFault>
        ensures closed { IfOk result (λ console. IsClosedAnd console (λ after.
            HasLostPower (D.state (device_of self)) (D.state after))) }
        ensures lost { IfOk result (λ console. IsClosedAnd console (D.loses (device_of self))) }
    {
        let device = match self {
            Console::Closed(device) => device,
            Console::Open(clerk) => clerk.into_device(),
        };
        let device = device.lose_power(alloc);
        output.line(format_args!("crashed"))?;
        Ok(Console::Closed(device))
    }
}

// Prints what the clerk answered a station that asked for its turn: the last one of its history, or
// why it took none.
fn print_answer<D: Device, W: Write>(
    answer: Result<(), TurnRefusal>,
    clerk: &ScriptedClerk<D>,
    output: &mut Output<'_, W>,
) -> Result<(), StreamFault> {
    match (answer, clerk.history().last()) {
        (Ok(()), Some(turn)) => print_turn(turn, output),
        (Ok(()), None) => Ok(()),
        (Err(refusal), _) => print_refusal(Refusal::Turn(refusal), output),
    }
}
