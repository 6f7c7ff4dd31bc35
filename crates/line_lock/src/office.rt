//! The office.
ghost use Rattle.std.specs.Prelude.{◌≡◌, ◌≢◌, ◌⊎◌, ℕ, ◌+◌, ◌-◌, ◌*◌, ◌<◌, ◌≤◌, ◌↔◌, [], length};
ghost use Rattle.std.specs.Prelude.{map, All, sum_by, vec_capacity, false, IsTrue, IfOk, IfErr};
ghost use Rattle.std.specs.Prelude.{OnOk, IsErrAnd, Err};
ghost use Rattle.std.specs.List.{range_with_len};
ghost use Rattle.sector_device.specs.Device.{AreCalls};
ghost use Rattle.sector_device.specs.Crash.{OnlyLooks, IsDurable};
ghost use Rattle.four_state.specs.Configuration.{stations};
ghost use Rattle.sweep_auditor.specs.Run.{IsRun};
ghost use Rattle.sweep_auditor.specs.Audited.{IsAuditOf};
ghost use Rattle.turn_clerk.specs.Clerk.{KeepsHistory, LeavesAcknowledged, LeftPrefixEver};
ghost use Rattle.turn_clerk.specs.Clerk.{opening_state, present_state};
ghost use Rattle.turn_clerk.specs.FarBack.{LeftRecordsEver};
ghost use Rattle.turn_clerk.specs.History.{moves_of};
ghost use Rattle.turn_clerk.specs.Reply.{turn_of};
ghost use Rattle.line_lock.specs.Account.{IsBorneOut, failed_turns, seats_of, IsSeatMissing};
ghost use Rattle.journal_recovery.specs.State.{State};
ghost use Rattle.journal_recovery.specs.Refused.{RecoveryRefuses};
ghost use Rattle.line_lock.specs.OpenedOn.{Names, WasOpenedOn, WasLeftByClerk};
ghost use Rattle.line_lock.specs.Seat.{new_seat};
ghost use Rattle.line_lock.specs.Told.{WasTold};
ghost use Rattle.line_lock.specs.Asked.{WasToldBalance, WasToldRoom, WasSearched};
ghost use Rattle.turn_ledger.specs.State.{IsAccount};

use crate::closing::{CloseRefusal, Closing, audited, gathered, look_at};
use crate::locked::{Locked, LockedTurn};
use crate::opened_on::OpenedOn;
use crate::refusals::{BalanceRefusal, WithinRefusal};
use crate::seat::Seat;
use crate::told::Room;
use four_state::Line;
use journal_recovery::OpenRefusal;
use sector_device::Device;
use std::alloc::Global;
use std::sync::ledger::{Blank, Ledger as Count};
use std::sync::{Mutex, Wait};
use turn_clerk::{Clerk, FindRefusal, SearchStep, SearchTarget, Taken, Turn, TurnRefusal};
use turn_ledger::Entry;

/// One clerk that several stations share, one turn at a time.
#[derive(Drop)]
pub struct Office<D: Device, L: Count + OpenedOn> {
    locked: Mutex<Locked<D, L>>,
}

impl<D: Device, L: Count + OpenedOn> Office<D, L> {
    /// Opens the ledger of a device for a line of stations, and hands out a seat for each, station
    /// 0 first. All memory is reserved before any device call. A refusal hands the device back and
    /// drops the blank. `L` names the device and the line, so that closing the office can tell what
    /// it was opened on.
    ///
    /// # Errors
    /// The device comes back with an [`OpenRefusal`], the first that holds; `Memory` comes before
    /// any device call. The blank is dropped.
    pub fn open(
        alloc: Global,
        device: D,
        line: Line,
        blank: Blank,
    ) -> Result<(Office<D, L>, Vec<Seat<L>>), (D, OpenRefusal)>
        requires named { Names L.name L.parts L.device L.line blank (D.state device) line }
        requires begins { (found : State) → L.begins found }
        ensures seats { IfOk result (λ opened.
            opened.1.items ≡ map new_seat (range_with_len 0 (stations line))) }
        ensures call { IfErr result (λ e.
            AreCalls (D.state device) (D.state e.0) (e.1 ≡ OpenRefusal.Device)) }
        ensures untouched { IfErr result (λ e. e.1 ≡ OpenRefusal.Memory → e.0 ≡ device) }

        // On an honest device.
        ensures looks { (D.state device).honest
            → IfErr result (λ e. OnlyLooks (D.state device) (D.state e.0)) }
        ensures settled { (D.state device).honest → IfErr result (λ e.
            e.1 ≢ OpenRefusal.Memory → e.1 ≢ OpenRefusal.Device → IsDurable (D.state e.0)) }
        ensures refused { (D.state device).honest → IfErr result (λ e.
            e.1 ≢ OpenRefusal.Memory → e.1 ≢ OpenRefusal.Device
            → RecoveryRefuses (D.state device).reads e.1) }
    {
        let mut seats = Vec::new(alloc);
        if seats.reserve(line.stations() as usize).is_err() {
            return Err((device, OpenRefusal::Memory));
        }
        let clerk = Clerk::open(alloc, device, line)?;
        Ok(Office::seated(alloc, clerk, blank, seats))
    }

    /// The same over a clerk, which begins anew with its ledger and its line: nothing is read of
    /// the device.
    ///
    /// # Errors
    /// The clerk comes back as it was. `Memory`: there is none for the seats. `Device`: the clerk
    /// has met a fault of its device. The blank is dropped.
    pub fn open_over(
        alloc: Global,
        clerk: Clerk<D>,
        blank: Blank,
    ) -> Result<(Office<D, L>, Vec<Seat<L>>), (Clerk<D>, OpenRefusal)>
        requires named { Names L.name L.parts L.device L.line blank
            (D.state clerk.journal.device) clerk.line }
        requires begins { L.begins (present_state clerk) }
        ensures seats { IfOk result (λ opened.
            opened.1.items ≡ map new_seat (range_with_len 0 (stations clerk.line))) }
        ensures back { IfErr result (λ e. e.0 ≡ clerk) }
        ensures refused { IfErr result (λ e. e.1 ≢ OpenRefusal.Memory
            → (e.1 ≡ OpenRefusal.Device) × IsTrue clerk.journal.faulted) }
        ensures works { OnOk result (clerk.journal.faulted ≡ false) }
    {
        let (mut seats, line) = (Vec::new(alloc), clerk.line());
        if seats.reserve(line.stations() as usize).is_err() {
            return Err((clerk, OpenRefusal::Memory));
        }
        match clerk.begin_anew(line) {
            Ok(clerk) => Ok(Office::seated(alloc, clerk, blank, seats)),
            Err(clerk) => Err((clerk, OpenRefusal::Device)),
        }
    }

    // The office of a clerk that was just opened, and the seats of its stations, for which there
    // are places.
    fn seated(
        alloc: Global,
        clerk: Clerk<D>,
        blank: Blank,
        mut seats: Vec<Seat<L>>,
    ) -> (Office<D, L>, Vec<Seat<L>>)
        requires name { blank.name ≡ L.name }
        requires parts { (blank.parts ≡ L.parts) × (L.parts ≡ stations clerk.line) }
        requires new { (clerk.history ≡ []) × (clerk.journal.faulted ≡ false) }
        requires opened { WasOpenedOn D.state L.device L.line clerk }
        requires begins { L.begins (opening_state clerk) }
        requires places { (seats.items ≡ []) × (stations clerk.line ≤ vec_capacity seats) }
        ensures { result.1.items ≡ map new_seat (range_with_len 0 (stations clerk.line)) }
    {
        let (book, mut rest) = blank.open::<L>();
        for station in 0..clerk.line().stations() {
            seats.push_reserved(Seat::new(alloc, station, rest.split_off(1, 0)));
        }
        let locked = Mutex::new(Locked { clerk, book, rest });
        (Office { locked }, seats)
    }

    /// Takes a turn of the seat's station with these entries; it may wait for the lock. A place for
    /// the turn in the seat's list is reserved first, so running out of memory there comes before
    /// every other refusal.
    ///
    /// # Errors
    /// [`TurnRefusal`]: `Memory` for the seat's list, and then the first that holds of the clerk.
    /// The seat's list is as it was.
    pub fn turn<R: Wait>(
        &self,
        rt: &R,
        seat: &mut Seat<L>,
        entries: &[Entry],
    ) -> Result<Turn, TurnRefusal>
        ensures told { WasTold D.state L.device L.line seat.old seat.new
            entries.now result (λ refusal. refusal) }
        ensures reached { seat.new.reached ≡ seat.old.reached }
    {
        match self.take_turn(rt, seat, entries) {
            Ok(_) => Ok(seat.turns[seat.turns.len() - 1]),
            Err(refusal) => Err(refusal),
        }
    }

    // The same, but the turn stays where it is kept, the last of the seat's list.
    fn take_turn<R: Wait>(
        &self,
        rt: &R,
        seat: &mut Seat<L>,
        entries: &[Entry],
    ) -> Result<Taken, TurnRefusal>
        ensures told { WasTold D.state L.device L.line seat.old seat.new
            entries.now (turn_of result) (λ refusal. refusal) }
        ensures reached { seat.new.reached ≡ seat.old.reached }
    {
        if !seat.has_place() {
            return Err(TurnRefusal::Memory);
        }
        self.locked.lock(rt).turn(seat, entries)
    }

    /// As `turn`, but for an office whose history is meant to hold so many turns and no more: under
    /// the lock it is looked at first whether it holds them.
    ///
    /// # Errors
    /// `Memory` for the seat's list, `Reached` if so many turns were taken, and then as of `turn`.
    pub fn turn_within<R: Wait>(
        &self,
        rt: &R,
        seat: &mut Seat<L>,
        entries: &[Entry],
        limit: u64,
    ) -> Result<Turn, WithinRefusal>
        ensures told { WasTold D.state L.device L.line seat.old seat.new
            entries.now result WithinRefusal.Turn }
        ensures within { IfOk result (λ turn. turn.index < limit) }
        ensures reached { result ≡ Err WithinRefusal.Reached → limit ≤ seat.new.reached }
        ensures no_more { (seat.new.reached ≡ limit) ⊎ (seat.new.reached ≡ seat.old.reached) }
        ensures not_reached { result ≢ Err WithinRefusal.Reached
            → seat.new.reached ≡ seat.old.reached }
        ensures never_falls { seat.old.reached ≤ seat.new.reached }
    {
        match self.take_turn_within(rt, seat, entries, limit) {
            Ok(_) => Ok(seat.turns[seat.turns.len() - 1]),
            Err(refusal) => Err(refusal),
        }
    }

    /// As [`turn_within`](Office::turn_within), but the turn isn't handed out: it stays where it is
    /// kept, the last of the seat's list.
    ///
    /// # Errors
    /// The same.
    pub fn take_turn_within<R: Wait>(
        &self,
        rt: &R,
        seat: &mut Seat<L>,
        entries: &[Entry],
        limit: u64,
    ) -> Result<Taken, WithinRefusal>
        ensures told { WasTold D.state L.device L.line seat.old seat.new
            entries.now (turn_of result) WithinRefusal.Turn }
        ensures within { IfOk (turn_of result) (λ turn. turn.index < limit) }
        ensures reached { result ≡ Err WithinRefusal.Reached → limit ≤ seat.new.reached }
        ensures no_more { (seat.new.reached ≡ limit) ⊎ (seat.new.reached ≡ seat.old.reached) }
        ensures not_reached { result ≢ Err WithinRefusal.Reached
            → seat.new.reached ≡ seat.old.reached }
        ensures never_falls { seat.old.reached ≤ seat.new.reached }
    {
        if !seat.has_place() {
            return Err(WithinRefusal::Turn(TurnRefusal::Memory));
        }
        self.locked.lock(rt).turn_within(seat, entries, limit)
    }

    /// How far the ledger is, and how much room its live bank has; it may wait for the lock.
    /// Nothing is read of the device.
    pub fn room<R: Wait>(&self, rt: &R) -> Room
        ensures { WasToldRoom D.state L.device L.line L.begins result }
    {
        self.locked.lock(rt).room()
    }

    /// What an account holds; it may wait for the lock. The history that the balance comes from has
    /// at least as many turns as the seat lists. The seat notes the answer, for closing the office.
    ///
    /// # Errors
    /// [`BalanceRefusal`], the first that holds.
    pub fn balance<R: Wait>(
        &self,
        rt: &R,
        seat: &mut Seat<L>,
        account: u32,
    ) -> Result<u64, BalanceRefusal>
        ensures told { WasToldBalance D.state L.device L.line L.begins
            seat.old seat.new account result }
        ensures there { OnOk result (IsAccount account) }
        ensures no_account { result ≡ Err BalanceRefusal.NoAccount → IsAccount account → ⊥ }
    {
        self.locked.lock(rt).balance(seat, account)
    }

    /// Looks for what is sought in the records in sight, as [`Clerk::search`] does; it may wait for
    /// the lock. A call takes the lock for one step, of [`turn_clerk::SEARCH_STEP`] records at
    /// most: between the calls of a long search others may take turns. The seat notes if it is told
    /// of a fault, for closing the office.
    ///
    /// # Errors
    /// [`FindRefusal`], the first that holds.
    pub fn search<R: Wait>(
        &self,
        rt: &R,
        seat: &mut Seat<L>,
        sought: SearchTarget,
        from: u64,
        end: u64,
    ) -> Result<SearchStep, FindRefusal>
        ensures told { WasSearched D.state L.device L.line L.begins
            seat.old seat.new sought from end result }
        ensures never_changed { L.device.honest → result ≢ Err FindRefusal.Changed }
    {
        self.locked.lock(rt).search(seat, sought, from, end)
    }

    /// Closes the office, if the list has the seat of each station and the clerk bears out what
    /// each one holds: its list is that of the station's turns, in order, each once; if it was told
    /// that it isn't its turn, it wasn't; the last balance that it was told is what the account
    /// then held; and where it was told of a fault, there was one. Seats may come in any order. It
    /// waits for nobody, and a faulted office is closed too.
    ///
    /// # Errors
    /// The office and the seats come back: a seat is missing, or is another office's.
    pub fn close(
        self,
        seats: Vec<Seat<L>>,
    ) -> Result<Closing<D>, (Office<D, L>, Vec<Seat<L>>, CloseRefusal)>
        ensures missing { (IsErrAnd result (λ e. e.2 ≡ CloseRefusal.SeatMissing))
            ↔ IsSeatMissing L.parts seats.items }
        ensures handed_back { IfErr result (λ e. e.1.items ≡ seats.items) }

        // What the seats hold, turn by turn.
        ensures stations { IfOk result (λ closing. stations closing.clerk.opening.line ≡ L.parts) }
        ensures one_seat { OnOk result ((station : ℕ) → station < L.parts
            → seats_of station seats.items ≡ 1) }
        ensures borne_out { IfOk result (λ closing.
            All (IsBorneOut closing.clerk) seats.items) }
        ensures counted { IfOk result (λ closing.
            length closing.clerk.history ≡ sum_by (λ seat. length seat.turns) seats.items) }
        ensures there { IfOk result (λ closing.
            All (λ turn. turn.station < L.parts) closing.clerk.history) }
        ensures failed { IfOk result (λ closing.
            sum_by (λ seat. seat.failed) seats.items ≡ failed_turns closing.clerk) }

        // The clerk, over its whole life.
        ensures opened { IfOk result (λ closing.
            WasOpenedOn D.state L.device L.line closing.clerk) }
        ensures legal { IfOk result (λ closing. KeepsHistory closing.clerk) }
        ensures run { IfOk result (λ closing.
            IsRun closing.clerk.opening.line (moves_of closing.clerk.history)) }
        ensures acknowledged { IfOk result (λ closing.
            (D.state closing.clerk.journal.device).honest
            → LeavesAcknowledged D.state closing.clerk) }
        ensures at_any_moment { IfOk result (λ closing.
            (D.state closing.clerk.journal.device).honest → LeftPrefixEver D.state closing.clerk) }
        ensures in_sight { IfOk result (λ closing.
            (D.state closing.clerk.journal.device).honest → LeftRecordsEver D.state closing.clerk) }

        ensures began { IfOk result (λ closing. L.begins (opening_state closing.clerk)) }

        // The audit of its opening line and all its moves.
        ensures last { IfOk result (λ closing. closing.audit.last ≡ closing.clerk.line) }
        ensures audit { IfOk result (λ closing.
            IsAuditOf closing.clerk.opening.line (moves_of closing.clerk.history) closing.audit) }
    {
        let Office { locked } = self;
        let locked = locked.into_inner();
        if let Err(refusal) = look_at(&locked.clerk, seats.as_slice()) {
            let locked = Mutex::new(locked);
            return Err((Office { locked }, seats, refusal));
        }
        let Locked {
            clerk,
            mut book,
            rest,
        } = locked;
        // for the contract alone: each turn is in some seat's list, a failed one is counted, and
        // what every clerk keeps
        book.audit(&mut gathered(rest, seats));
        clerk.legal_history();
        clerk.durable_prefix();
        clerk.how_far_back();
        let audit = audited(&clerk);
        Ok(Closing { clerk, audit })
    }

    /// The clerk of an office that nobody closes, without an account of the seats. It waits for
    /// nobody.
    pub fn into_clerk(self) -> Clerk<D>
        ensures stations { stations result.opening.line ≡ L.parts }
        ensures opened { WasOpenedOn D.state L.device L.line result }
        ensures legal { KeepsHistory result }
        ensures acknowledged { (D.state result.journal.device).honest
            → LeavesAcknowledged D.state result }
        ensures at_any_moment { (D.state result.journal.device).honest
            → LeftPrefixEver D.state result }
        ensures in_sight { (D.state result.journal.device).honest
            → LeftRecordsEver D.state result }
    {
        let Office { locked } = self;
        let locked = locked.into_inner();
        let Locked { clerk: kept, .. } = locked;
        // for the contract alone: what every clerk keeps
        kept.legal_history();
        kept.durable_prefix();
        kept.how_far_back();
        kept
    }

    /// The device of an office that nobody closes. It waits for nobody.
    pub fn given_up(self) -> D
        ensures { WasLeftByClerk D.state L.device L.line result }
    {
        self.into_clerk().into_device()
    }
}
