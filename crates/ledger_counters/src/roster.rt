//! Which station each counter has, and from which batch on only offices posted.
ghost use Rattle.std.specs.Prelude.{◌≡◌, ◌<◌, ◌≤◌, ◌++◌, ◌∷◌, [], min, map, true, false, bytes_eq};
ghost use Rattle.std.specs.Prelude.{HoldsAt, All, IsNone, length, string_bytes, slice_get};
ghost use Rattle.std.specs.Prelude.{Contains, Some, None, Err, IfOk, IfErr, IfSome, IsTrue, OnOk};
ghost use Rattle.std.specs.Prelude.{OnErr};
ghost use Rattle.ledger_counters.specs.Faults.{IsOfSeat};
ghost use Rattle.ledger_counters.specs.Name.{IsName};
ghost use Rattle.ledger_counters.specs.Seats.{Seats, IsAsLeft};

use crate::name::is_name;
use crate::refusal::RosterFault;
use std::alloc::Global;
use std::marker::Model;

/// A line has no more stations.
pub const MOST_COUNTERS: usize = 64;

/// How a ledger was left.
#[derive(Clone, Copy, Debug, PartialEq, Eq)]
pub enum LastUse {
    /// An office was opened when the next batch had this number, and didn't tell that it was
    /// closed.
    Open(u64),
    /// An office was closed when the next batch had this number.
    Closed(u64),
    /// A script may have posted since.
    Script,
}

/// Which station each counter has for good, and from which batch on only offices posted.
#[derive(Debug, Drop)]
pub struct Roster {
    /// A number by which the ledger is told from others.
    ledger: u64,
    since: u64,
    left: LastUse,
    names: Vec<String>,
}

impl Model for Roster {
    ghost use Rattle.std.specs.Prelude.{◌≤◌, map, length, string_bytes, vec_len};
    ghost use Rattle.ledger_counters.specs.Seats.{Seats};

    ghost Value = { Seats };

    ghost view = { λ r. record {
      names = map (λ name. string_bytes name) r.names.items;
      since = r.since;
      left = r.left;
      ledger = r.ledger;
    } };

    ghost invariant = { λ r. vec_len r.names ≤ 64 };
}

impl Roster {
    /// No counter yet, of the ledger with this number, whose next batch has that one: what stands
    /// before it is no counter's.
    pub fn new(alloc: Global, ledger: u64, next: u64) -> Roster
        ensures nobody { result.names ≡ [] }
        ensures since { result.since ≡ next }
        ensures left { result.left ≡ LastUse.Open next }
        ensures ledger { result.ledger ≡ ledger }
    {
        Roster {
            ledger,
            since: next,
            left: LastUse::Open(next),
            names: Vec::new(alloc),
        }
    }

    /// The number by which the ledger is told from others.
    pub fn ledger(&self) -> u64
        ensures { result ≡ self.now.ledger }
    {
        self.ledger
    }

    /// From which batch on only offices posted.
    pub fn since(&self) -> u64
        ensures { result ≡ self.now.since }
    {
        let Roster { since, .. } = self;
        *since
    }

    /// How the ledger was left.
    pub fn left(&self) -> LastUse
        ensures { result ≡ self.now.left }
    {
        let Roster { left, .. } = self;
        *left
    }

    /// The counters' names, that of station 0 first.
    pub fn names(&self) -> &[String]
        ensures { map (λ name. string_bytes name) result.now ≡ self.now.names }
    {
        self.names.as_slice()
    }

    /// The station of the counter with this name, if it has one.
    pub fn station_of(&self, name: &str) -> Option<u8>
        ensures its_own { IfSome result (λ station. slice_get self.now.names station ≡ Some name.now) }
        ensures none { result ≡ None → Contains self.now.names name.now → ⊥ }
        ensures most { length self.now.names ≤ 64 }
    {
        station_in(self.names.as_slice(), name)
    }

    /// The station of the counter with this name: its own, and that of a new one is the next that
    /// no counter has.
    ///
    /// # Errors
    /// [`RosterFault`], `NoName`, `Full` or `Memory`; nothing has changed then.
    pub fn seat(&mut self, alloc: Global, name: &str) -> Result<u8, RosterFault>
        ensures its_own { IfOk result (λ station. slice_get self.new.names station ≡ Some name.now) }
        ensures known { Contains self.old.names name.now → self.new.names ≡ self.old.names }
        ensures new { (Contains self.old.names name.now → ⊥) → IfOk result (λ station.
            self.new.names ≡ self.old.names ++ name.now ∷ []) }
        ensures named { (Contains self.old.names name.now → ⊥)
            → IfOk result (λ station. IsName name.now) }
        ensures no_name { result ≡ Err RosterFault.NoName
            → (IsName name.now → ⊥) × (Contains self.old.names name.now → ⊥) }
        ensures full { result ≡ Err RosterFault.Full
            → (length self.old.names ≡ 64) × (Contains self.old.names name.now → ⊥) }
        ensures cause { IfErr result IsOfSeat }
        ensures refused { IfErr result (λ refusal. self.new ≡ self.old) }
        ensures since { self.new.since ≡ self.old.since }
        ensures left { self.new.left ≡ self.old.left }
        ensures ledger { self.new.ledger ≡ self.old.ledger }
        ensures most { length self.new.names ≤ 64 }
    {
        if let Some(station) = self.station_of(name) {
            return Ok(station);
        }
        self.add(alloc, name)
    }

    // The station of a new counter.
    fn add(&mut self, alloc: Global, name: &str) -> Result<u8, RosterFault>
        ensures its_own { IfOk result (λ station. slice_get self.new.names station ≡ Some name.now) }
        ensures new { IfOk result (λ station. self.new.names ≡ self.old.names ++ name.now ∷ []) }
        ensures named { IfOk result (λ station. IsName name.now) }
        ensures no_name { result ≡ Err RosterFault.NoName → IsName name.now → ⊥ }
        ensures full { result ≡ Err RosterFault.Full → length self.old.names ≡ 64 }
        ensures cause { IfErr result IsOfSeat }
        ensures refused { IfErr result (λ refusal. self.new ≡ self.old) }
        ensures since { self.new.since ≡ self.old.since }
        ensures left { self.new.left ≡ self.old.left }
        ensures ledger { self.new.ledger ≡ self.old.ledger }
        ensures most { length self.new.names ≤ 64 }
    {
        let station = self.names.len();
        if !is_name(name) {
            return Err(RosterFault::NoName);
        }
        if station >= MOST_COUNTERS {
            return Err(RosterFault::Full);
        }
        add_name(alloc, &mut self.names, name)?;
        Ok(station as u8)
    }

    /// An office is opened on the ledger, whose next batch has this number. If that isn't as an
    /// office left it, what stands before the next batch is no counter's.
    pub fn settle(&mut self, next: u64)
        ensures as_left { IsAsLeft self.old.left next → self.new.since ≡ min self.old.since next }
        ensures changed { (IsAsLeft self.old.left next → ⊥) → self.new.since ≡ next }
        ensures left { self.new.left ≡ LastUse.Open next }
        ensures names { self.new.names ≡ self.old.names }
        ensures ledger { self.new.ledger ≡ self.old.ledger }
    {
        if !is_as_left(self.left, next) {
            self.since = next;
        }
        self.since = self.since.min(next);
        self.left = LastUse::Open(next);
    }

    /// How the ledger is left now.
    pub fn leave(&mut self, left: LastUse)
        ensures left { self.new.left ≡ left }
        ensures since { self.new.since ≡ self.old.since }
        ensures names { self.new.names ≡ self.old.names }
        ensures ledger { self.new.ledger ≡ self.old.ledger }
    {
        self.left = left;
    }
}

// Whether the next batch has the number that an office left.
fn is_as_left(left: LastUse, next: u64) -> bool
    ensures yes { IsTrue result → IsAsLeft left next }
    ensures no { result ≡ false → IsAsLeft left next → ⊥ }
{
    match left {
        LastUse::Open(number) => number <= next,
        LastUse::Closed(number) => number == next,
        LastUse::Script => false,
    }
}

// The station of a name among these.
fn station_in(names: &[String], name: &str) -> Option<u8>
    requires most { length names.now ≤ 64 }
    ensures its_own { IfSome result (λ station.
        slice_get (map (λ one. string_bytes one) names.now) station ≡ Some name.now) }
    ensures none { IsNone result
        → Contains (map (λ one. string_bytes one) names.now) name.now → ⊥ }
{
    match place_of(names, name) {
        Some(place) => Some(place as u8),
        None => None,
    }
}

// The first place of a name.
fn place_of(names: &[String], name: &str) -> Option<usize>
    ensures within { IfSome result (λ place. place < length names.now) }
    ensures some { IfSome result (λ place.
        HoldsAt (λ one. bytes_eq (string_bytes one) name.now ≡ true) names.now place) }
    ensures none { IsNone result
        → All (λ one. bytes_eq (string_bytes one) name.now ≡ false) names.now }
{
    names.iter().position(|one| one.as_str() == name)
}

// Puts a name behind the others.
fn add_name(alloc: Global, names: &mut Vec<String>, name: &str) -> Result<(), RosterFault>
    ensures added { OnOk result (map (λ one. string_bytes one) names.new.items
        ≡ map (λ one. string_bytes one) names.old.items ++ name.now ∷ []) }
    ensures refused { OnErr result (names.new.items ≡ names.old.items) }
    ensures memory { IfErr result (λ refusal. refusal ≡ RosterFault.Memory) }
{
    let Ok(own) = name.to_owned(alloc) else {
        return Err(RosterFault::Memory);
    };
    names.push(own).or(Err(RosterFault::Memory))
}
