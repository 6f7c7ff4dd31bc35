//! An office that is lent to whoever works in it.
ghost use Rattle.std.specs.Prelude.{◌≡◌, ℕ, List, IfOk, IfErr};
ghost use Rattle.sector_device.specs.Device.{DeviceState};
ghost use Rattle.four_state.specs.Configuration.{Configuration, stations};
ghost use Rattle.journal_recovery.specs.State.{State};
ghost use Rattle.line_lock.specs.OpenedOn.{Names, WasLeftByClerk};
ghost use Rattle.line_lock.specs.Seat.{SeatState};
ghost use Rattle.line_lock.specs.Lent.{new_seats, AccountFor, IsClosed, IsRefused, IfOpening};
ghost use Rattle.line_lock.specs.Lent.{UnlessOpening};

use crate::closing::{CloseRefusal, Closing};
use crate::office::Office;
use crate::opened_on::OpenedOn;
use crate::seat::Seat;
use four_state::Line;
use journal_recovery::OpenRefusal;
use sector_device::Device;
use std::alloc::Global;
use std::fmt::Display;
use std::marker::Brand;
use std::sync::ledger::{Blank, Ledger as Count};
use thiserror::Error;

/// What is done in an office between its opening and its closing.
pub trait OfficeWork<D: Device>: Drop {
    /// What the work answers besides the seats.
    type Answer: Drop;

    /// Why it gave up.
    type Failure: Display;

    /// Whether it can be done in an office of so many stations.
    ghost ready: { Self → ℕ → Type 0 } = { λ _ _. Unit {0} };

    /// What it makes, in an office that was opened on this device with this line, of the seats that
    /// it was lent: those that it gives back, and its answer. A work that doesn't say promises
    /// nothing of them.
    ghost makes: { Self → DeviceState → Configuration → List SeatState → List SeatState
        → Self.Answer → Type 0 } = { λ _ _ _ _ _ _. Unit {0} };

    /// Works with the seats of an office, that of station 0 first, and gives all of them back.
    fn work<L: Count + OpenedOn + Send + Sync>(
        self,
        office: &Office<D, L>,
        seats: Vec<Seat<L>>,
    ) -> Result<(Vec<Seat<L>>, Self::Answer), Self::Failure>
        requires ready { ready self L.parts }
        requires seats { seats.items ≡ new_seats L.parts }
        ensures made { IfOk result (λ done.
            makes self L.device L.line seats.items done.0.items done.1) };
}

/// Why an office was not opened, worked in and closed.
#[derive(Clone, Copy, Debug, PartialEq, Eq, Error)]
pub enum OfficeRefusal<F: Display> {
    /// It can't be opened; nothing was done in it.
    #[error("{0}")]
    Opening(OpenRefusal),
    /// The work gave up.
    #[error("{0}")]
    Work(F),
    /// It can't be closed: the work gave back other seats than it was lent.
    #[error("{0}")]
    Closing(CloseRefusal),
}

/// Opens an office on the device, with this line, lends it with all its seats to the work, and
/// closes it. Answers the closing, and what the work answered.
///
/// # Errors
/// The device comes back. [`OfficeRefusal::Opening`]: as it was left by the opening; else as a
/// clerk that took turns on it left it.
pub fn with_office<D: Device, W: OfficeWork<D>>(
    alloc: Global,
    device: D,
    line: Line,
    work: W,
) -> Result<(Closing<D>, W::Answer), (D, OfficeRefusal<W::Failure>)>
    requires ready { W.ready work (stations line) }

    // What the work made of the seats, which account for the whole history.
    ensures worked { IfOk result (λ done. (seats : List SeatState)
        × W.makes work (D.state device) line (new_seats (stations line)) seats done.1
        × AccountFor (stations line) seats done.0.clerk) }

    // The clerk, over its whole life, and the audit.
    ensures closed { IfOk result (λ done.
        IsClosed D.state (D.state device) line done.0.clerk done.0.audit) }

    // What an office that isn't closed leaves.
    ensures left { IfErr result (λ e.
        UnlessOpening e.1 (WasLeftByClerk D.state (D.state device) line e.0)) }
    ensures opening { IfErr result (λ e. IfOpening e.1 (IsRefused D.state device e.0)) }
{
    let blank = Blank::new(line.stations() as u64);
    // the name is this call's own: the device and the line as they were handed in
    lent::<D, Brand, W>(alloc, device, line, blank, work)
}

// The same in an office that has a name, which says what it is opened on.
fn lent<D: Device, L: Count + OpenedOn + Send + Sync, W: OfficeWork<D>>(
    alloc: Global,
    device: D,
    line: Line,
    blank: Blank,
    work: W,
) -> Result<(Closing<D>, W::Answer), (D, OfficeRefusal<W::Failure>)>
    requires named { Names L.name L.parts L.device L.line blank (D.state device) line }
    requires begins { (found : State) → L.begins found }
    requires ready { W.ready work (stations line) }
    ensures worked { IfOk result (λ done. (seats : List SeatState)
        × W.makes work L.device L.line (new_seats (stations line)) seats done.1
        × AccountFor (stations line) seats done.0.clerk) }
    ensures closed { IfOk result (λ done.
        IsClosed D.state L.device L.line done.0.clerk done.0.audit) }
    ensures left { IfErr result (λ e.
        UnlessOpening e.1 (WasLeftByClerk D.state L.device L.line e.0)) }
    ensures opening { IfErr result (λ e. IfOpening e.1 (IsRefused D.state device e.0)) }
{
    let (office, seats) = match Office::<D, L>::open(alloc, device, line, blank) {
        Ok(opened) => opened,
        Err((device, refusal)) => return Err((device, OfficeRefusal::Opening(refusal))),
    };
    let (seats, answer) = match work.work(&office, seats) {
        Ok(worked) => worked,
        Err(failure) => return Err((office.given_up(), OfficeRefusal::Work(failure))),
    };
    match office.close(seats) {
        Ok(closing) => Ok((closing, answer)),
        Err((office, _, refusal)) => Err((office.given_up(), OfficeRefusal::Closing(refusal))),
    }
}
