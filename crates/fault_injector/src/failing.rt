ghost use Rattle.std.specs.Prelude.{◌≡◌, ◌⊎◌, ◌+◌, ◌<◌, ◌≤◌, Bool, true, false, None, Some, length};
ghost use Rattle.std.specs.Prelude.{IsTrue, IsFalse, IsErr, OnOk};
ghost use Rattle.sector_device.specs.Image.{sector_at, with_sector};
ghost use Rattle.sector_device.specs.Device.{AreCalls, HasCause};
ghost use Rattle.sector_device.specs.Crash.{IsLook, IsWrite, IsDurable};
ghost use Rattle.sector_device.specs.Wrapped.{one_more, sound_with_failures};
ghost use Rattle.fault_injector.specs.Failing.{FailingState, Counts, Fails, HasCounted, IsPassedOn};
ghost use Rattle.fault_injector.specs.Failing.{IsHeldBack, failing_state};

use crate::op::Op;
use sector_device::{Device, DeviceFault, Sector};
use std::marker::Model;

/// What becomes of the call that a device waits for, and of those behind it.
pub trait FaultRule: Drop {
    ghost FOR_GOOD: { Bool };

    ghost may_give_leave: { Bool };

    /// Whether every later call, of any kind, fails too.
    const FOR_GOOD: bool;

    /// Whether the call is passed on all the same.
    fn gives_leave(&self) -> bool
        ensures { IsTrue result → may_give_leave ≡ true }
    {
        false
    }
}

/// The call alone fails.
#[derive(Debug, Default, Drop)]
pub struct Once;

impl FaultRule for Once {
    ghost FOR_GOOD = { false };

    ghost may_give_leave = { false };

    const FOR_GOOD: bool = false;
}

/// Every call fails from then on.
#[derive(Debug, Default, Drop)]
pub struct ForGood;

impl FaultRule for ForGood {
    ghost FOR_GOOD = { true };

    ghost may_give_leave = { false };

    const FOR_GOOD: bool = true;
}

/// A device that fails from one call on: the k-th call of a kind, counted from 0 since it was made,
/// and every later call of any kind fail without reaching the inner device.
pub type Fuse<D> = Failing<D, ForGood>;

/// A device that fails once: the k-th call of a kind, counted from 0 since it was made, fails
/// without reaching the inner device, and every other call is passed on.
pub type OneFault<D> = Failing<D, Once>;

/// A device that waits for the k-th call of a kind, and fails by a rule from there. It is honest
/// exactly if the inner device is.
#[derive(Debug, Drop)]
pub struct Failing<D: Device, R: FaultRule> {
    inner: D,
    op: Op,
    // How many calls of that kind come before the one that is waited for; None once that one was
    // made.
    left: Option<u64>,
    failures: u64,
    rule: R,
}

impl<D: Device, R: FaultRule> Model for Failing<D, R> {
    ghost Value = { FailingState D };

    ghost view = { λ f.
        record { inner = f.inner; op = f.op; left = f.left; failures = f.failures } };
}

impl<D: Device, R: FaultRule + Default> Failing<D, R> {
    /// A device that waits for call number `at` of that kind.
    pub fn new(inner: D, op: Op, at: u64) -> Failing<D, R>
        ensures { result ≡ record { inner = inner; op = op; left = Some at; failures = 0 } }
    {
        Failing::by_rule(inner, op, at, R::default())
    }
}

impl<D: Device, R: FaultRule> Failing<D, R> {
    /// A device that waits for call number `at` of that kind, and fails by this rule.
    pub(crate) fn by_rule(inner: D, op: Op, at: u64, rule: R) -> Failing<D, R>
        ensures { result ≡ record { inner = inner; op = op; left = Some at; failures = 0 } }
    {
        Failing {
            inner,
            op,
            left: Some(at),
            failures: 0,
            rule,
        }
    }

    /// The inner device, as it is.
    pub fn into_inner(self) -> D
        ensures { result ≡ self.inner }
    {
        let Failing { inner, .. } = self;
        inner
    }

    // Counts a call, and tells whether it fails.
    fn fails(&mut self, call: Op) -> bool
        ensures counted { HasCounted self.old self.new call }
        ensures inner { self.new.inner ≡ self.old.inner }
        ensures fails { R.may_give_leave ≡ false → Fails R.FOR_GOOD self.old call → IsTrue result }
        ensures only { IsTrue result → Fails R.FOR_GOOD self.old call }
        ensures passed { IsFalse result → self.new.failures ≡ self.old.failures }
        ensures failed { IsTrue result → self.new.failures ≡ one_more self.old.failures }
        ensures cause { HasCause self.old.failures self.new.failures (IsTrue result) }
        ensures no_fewer { self.old.failures ≤ self.new.failures }
    {
        let counted = self.op == Op::Any || self.op == call;
        let fails = match self.left {
            Some(left) => counted && left == 0 && !self.rule.gives_leave(),
            None => R::FOR_GOOD,
        };
        if counted && let Some(left) = self.left {
            self.left = left.checked_sub(1);
        }
        if fails {
            self.failures = self.failures.saturating_add(1);
        }
        fails
    }
}

impl<D: Device, R: FaultRule> Device for Failing<D, R> {
    ghost state = { failing_state D.state };

    fn sectors(&self) -> u64 {
        self.inner.sectors()
    }

    fn read(&mut self, at: u64, into: &mut Sector) -> Result<(), DeviceFault>
        requires { at < length (D.state self.old.inner).reads }
        ensures call { AreCalls (failing_state D.state self.old) (failing_state D.state self.new)
            (IsErr result) }
        ensures same { (D.state self.old.inner).honest
            → IsLook (failing_state D.state self.old) (failing_state D.state self.new) }
        ensures bytes { (D.state self.old.inner).honest
            → OnOk result (into.new ≡ sector_at (D.state self.old.inner).reads at) }
        ensures counted { HasCounted self.old self.new Op.Read }
        ensures fails { R.may_give_leave ≡ false → Fails R.FOR_GOOD self.old Op.Read
            → IsHeldBack self.old self.new (IsErr result) }
        ensures passed_on { (Fails R.FOR_GOOD self.old Op.Read → ⊥)
            → IsPassedOn D.state self.old self.new (IsErr result) }
        ensures held { IsPassedOn D.state self.old self.new (IsErr result)
            ⊎ IsHeldBack self.old self.new (IsErr result) }
    {
        if self.fails(Op::Read) {
            return Err(DeviceFault);
        }
        self.inner.read(at, into)
    }

    fn write(&mut self, at: u64, from: &Sector) -> Result<(), DeviceFault>
        requires { at < length (D.state self.old.inner).reads }
        ensures call { AreCalls (failing_state D.state self.old) (failing_state D.state self.new)
            (IsErr result) }
        ensures torn { (D.state self.old.inner).honest
            → IsWrite at (failing_state D.state self.old) (failing_state D.state self.new) }
        ensures written { (D.state self.old.inner).honest
            → OnOk result ((D.state self.new.inner).reads
            ≡ with_sector (D.state self.old.inner).reads at from.now) }
        ensures counted { HasCounted self.old self.new Op.Write }
        ensures fails { R.may_give_leave ≡ false → Fails R.FOR_GOOD self.old Op.Write
            → IsHeldBack self.old self.new (IsErr result) }
        ensures passed_on { (Fails R.FOR_GOOD self.old Op.Write → ⊥)
            → IsPassedOn D.state self.old self.new (IsErr result) }
        ensures held { IsPassedOn D.state self.old self.new (IsErr result)
            ⊎ IsHeldBack self.old self.new (IsErr result) }
    {
        if self.fails(Op::Write) {
            return Err(DeviceFault);
        }
        self.inner.write(at, from)
    }

    fn sync(&mut self) -> Result<(), DeviceFault>
        ensures call { AreCalls (failing_state D.state self.old) (failing_state D.state self.new)
            (IsErr result) }
        ensures same { (D.state self.old.inner).honest
            → IsLook (failing_state D.state self.old) (failing_state D.state self.new) }
        ensures durable { (D.state self.old.inner).honest
            → OnOk result (IsDurable (failing_state D.state self.new)) }
        ensures counted { HasCounted self.old self.new Op.Sync }
        ensures fails { R.may_give_leave ≡ false → Fails R.FOR_GOOD self.old Op.Sync
            → IsHeldBack self.old self.new (IsErr result) }
        ensures passed_on { (Fails R.FOR_GOOD self.old Op.Sync → ⊥)
            → IsPassedOn D.state self.old self.new (IsErr result) }
        ensures held { IsPassedOn D.state self.old self.new (IsErr result)
            ⊎ IsHeldBack self.old self.new (IsErr result) }
    {
        if self.fails(Op::Sync) {
            return Err(DeviceFault);
        }
        self.inner.sync()
    }

    ghost sound = { λ f honest.
        sound_with_failures (D.state f.inner) f.failures (D.sound f.inner honest) };
}
