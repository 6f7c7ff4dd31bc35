//! What a live office does between two spans.
ghost use Rattle.std.specs.Prelude.{◌≡◌, ◌⊎◌, ◌↔◌, ℕ, true, false};
ghost use Rattle.sector_device.specs.Crash.{WasLookedAt};
ghost use Rattle.office_day.specs.Archive.{Archive, CatchesUp, IsKept, WasKept, next_of};
ghost use Rattle.office_sessions.specs.OfficeStatus.{archived_of};

use crate::look::LookAnswer;
use crate::replies::OfficeLife;
use crate::scheduler::Scheduler;
use gate_journal::{Borrower, Journal};
use office_day::Recess;
use sector_device::Device;
use std::sync::Wait;

/// Why there is no copy. The first that holds.
#[derive(Clone, Copy, Debug, PartialEq, Eq)]
pub enum CounterCopyRefusal {
    /// The office has no folder for copies.
    NoFolder,
    /// Out of memory.
    Memory,
    /// The ledger can't be read.
    Device,
    /// There is a file of that name, which stays as it is: nothing was posted since the last copy,
    /// or it is another's.
    Occupied,
    /// The copy, or the file of its counters, can't be made, written, or given its name. What was
    /// made of it is removed, unless the system fails to take it away.
    Unwritten,
}

/// How far an office's archive is.
#[derive(Clone, Copy, Debug, PartialEq, Eq)]
pub enum ArchiveState {
    /// There is none.
    NoArchive,
    /// All batches below this number are in it.
    UpTo(u64),
    /// It can't be written.
    Failed,
}

impl ArchiveState {
    /// Below which number all batches are in the archive, if that is known.
    pub(crate) fn archived(self) -> Option<u64>
        ensures { result ≡ archived_of self }
    {
        match self {
            ArchiveState::UpTo(next) => Some(next),
            ArchiveState::NoArchive | ArchiveState::Failed => None,
        }
    }
}

/// Who keeps the archive of an office, looks into it, and makes copies of its ledger.
pub trait Keeper {
    ghost use Rattle.office_day.specs.Archive.{no_archive};
    ghost use Rattle.office_sessions.specs.declared.recess.ArchiveState.{ArchiveState};

    /// The archive, which an office that doesn't say so has none of.
    ghost archive: { Self → Archive } = { λ _. no_archive };

    /// How far it was when it was kept last.
    ghost so_far: { Self → ArchiveState };

    /// Adds to the archive what it lacks of the ledger, whose device is only looked at and handed
    /// back.
    fn keep<D: Device>(&mut self, journal: Journal<D>) -> (D, ArchiveState)
        ensures looked { WasLookedAt (D.state journal.device) (D.state result.0) }
        ensures kept { WasKept (D.state journal.device) (archive self.old) (archive self.new) }
        ensures so_far { so_far self.new ≡ result.1 }
        ensures none { result.1 ≡ ArchiveState.NoArchive → (archive self.old).honest ≡ false }
        ensures up_to { (next : ℕ) → result.1 ≡ ArchiveState.UpTo next
            → (archive self.old).honest ≡ true
            → next ≡ next_of (archive self.new) }
        ensures failed { ((archive self.new).failed ≡ true)
            ↔ (((archive self.old).failed ≡ true) ⊎ (result.1 ≡ ArchiveState.Failed)) };

    /// How far the archive is, as it was kept last.
    fn kept(&self) -> ArchiveState
        ensures { result ≡ so_far self.now };

    /// Makes a copy of the ledger on the device. All batches below the number are in it. The device
    /// is only looked at and handed back.
    ///
    /// # Errors
    /// [`CounterCopyRefusal`].
    fn copy<D: Device>(&mut self, device: D) -> (D, Result<u64, CounterCopyRefusal>)
        ensures looked { WasLookedAt (D.state device) (D.state result.0) }
        ensures archive { archive self.new ≡ archive self.old }
        ensures so_far { so_far self.new ≡ so_far self.old };

    /// The posting of a station with the greatest reference in the archive, and the number of the
    /// first batch that is in it. None without an archive, or if it can't be read.
    fn last(&mut self, station: u8) -> Option<LookAnswer>
        ensures archive { archive self.new ≡ archive self.old }
        ensures so_far { so_far self.new ≡ so_far self.old };
}

/// What a counter wants of a recess.
#[derive(Clone, Copy)]
pub(crate) enum Wish {
    Archive,
    Copy,
    /// The station's last posting in the archive.
    Last,
}

/// What came of a wish.
#[derive(Clone, Copy)]
pub(crate) enum WishOutcome {
    Archive(ArchiveState),
    Copy(Result<u64, CounterCopyRefusal>),
    Last(Option<LookAnswer>),
}

/// A live office between two spans: its archive is kept, and copies are made that were asked for.
/// If the archive can't be kept, no station takes a turn any more.
#[derive(Drop)]
pub(crate) struct WishGranter<'a, L: OfficeLife, R, K> {
    pub rt: &'a R,
    pub scheduler: &'a Scheduler<L>,
    pub keeper: K,
}

impl<L: OfficeLife, R: Wait, K: Keeper> WishGranter<'_, L, R, K> {
    // Keeps the archive; if it can't be kept, no station takes a turn any more.
    fn keep_archive<D: Device>(&mut self, journal: Journal<D>) -> (D, ArchiveState)
        ensures looked { WasLookedAt (D.state journal.device) (D.state result.0) }
        ensures kept { WasKept (D.state journal.device)
            (K.archive self.old.keeper) (K.archive self.new.keeper) }
    {
        let (device, kept) = self.keeper.keep(journal);
        self.scheduler.note_kept(self.rt, kept);
        if kept == ArchiveState::Failed {
            self.scheduler.cut_off();
        }
        (device, kept)
    }

    // Does what a station wants, if it wants anything, and tells it what came of that.
    fn grant<D: Device>(&mut self, device: D, station: u8, kept: ArchiveState) -> D
        ensures looked { WasLookedAt (D.state device) (D.state result) }
        ensures archive { K.archive self.new.keeper ≡ K.archive self.old.keeper }
    {
        let Some(wish) = self.scheduler.take_wish(self.rt, station) else {
            return device;
        };
        let (device, came) = match wish {
            Wish::Archive => (device, WishOutcome::Archive(kept)),
            Wish::Copy => {
                let (device, copied) = self.keeper.copy(device);
                (device, WishOutcome::Copy(copied))
            }
            Wish::Last => (device, WishOutcome::Last(self.keeper.last(station))),
        };
        self.scheduler.tell(self.rt, station, came);
        device
    }
}

impl<L: OfficeLife, R: Wait, K: Keeper> Borrower for WishGranter<'_, L, R, K> {
    ghost changes = { λ old new. IsKept (K.archive old.keeper) (K.archive new.keeper) };

    ghost learns = { λ image old new.
        CatchesUp image (K.archive old.keeper) (K.archive new.keeper) };

    fn look<D: Device>(&mut self, journal: Journal<D>) -> D {
        let (mut device, kept) = self.keep_archive(journal);
        self.scheduler.begin_recess();
        for station in 0..self.scheduler.stations() {
            device = self.grant(device, station, kept);
        }
        self.scheduler.wake_dispatcher();
        device
    }
}

impl<L: OfficeLife, R: Wait, K: Keeper> Recess for WishGranter<'_, L, R, K> {
    ghost archive = { λ granting. K.archive granting.keeper };

    ghost keeps = { λ old new kept. kept };

    ghost catches_up = { λ image old new caught_up. caught_up };

    fn is_called(&self) -> bool {
        self.scheduler.is_recess_called()
    }
}
