//! What a device is drawn as: its parts in order, and the kind of each sector.
ghost use Rattle.std.specs.Prelude.{◌≡◌, ◌≢◌, ◌⊎◌, ◌↔◌, IsErr, IsTrue, IfOk};
ghost use Rattle.sector_device.specs.Crash.{AreLooks};
ghost use Rattle.ledger_drawing.specs.Damage.{HasDamage};

use crate::kind::SectorKind;
use crate::section::{COLUMNS, Heading, Section};
use gate_journal::{Bank, Plan};
use ledger_damage::{Place, find_live_bank, find_plan, read_gate};
use sector_device::{Device, DeviceFault};
use std::fmt;

/// The most cells of slots, but for the last one of each bank, or of a device without a known
/// layout.
const MOST_CELLS: u64 = 4096;

/// A device that is drawn.
#[derive(Clone, Copy, Debug)]
pub(crate) struct Map {
    pub sectors: u64,
    pub plan: Option<Plan>,
    pub live: Option<Bank>,
    pub damage: Option<Place>,
}

impl Map {
    /// That of a device on which this byte is damaged.
    pub(crate) fn read<D: Device>(device: &mut D, damage: Option<Place>) -> Result<Map, DeviceFault>
        ensures looks { AreLooks (D.state device.old) (D.state device.new) (IsErr result) }
        ensures damage { IfOk result (λ map. map.damage ≡ damage) }
    {
        let plan = find_plan(device)?;
        let live = match plan {
            Some(plan) => find_live_bank(device, plan)?,
            None => None,
        };
        Ok(Map {
            sectors: device.sectors(),
            plan,
            live: live.map(|live| live.bank),
            damage,
        })
    }

    /// How many sectors the layout uses, or all if it isn't known.
    fn used(&self) -> u64 {
        match self.plan {
            Some(plan) => plan.sectors(),
            None => self.sectors,
        }
    }

    /// How many neighbours one cell stands for.
    pub(crate) fn joined(&self) -> u64 {
        self.used().div_ceil(MOST_CELLS)
    }

    /// The parts of the drawing, in order.
    pub(crate) fn sections(&self) -> [Section; 6] {
        let mut sections = [Section::EMPTY; 6];
        match self.plan {
            Some(plan) if plan.has_banks() => return self.sections_of(plan),
            Some(plan) => {
                sections[0] = Section::of(Heading::Superblock, 0, 1, 1);
                sections[1] = Section::of(Heading::Row, 1, plan.sectors(), self.joined());
                sections[2] = self.unused();
            }
            None => sections[0] = Section::of(Heading::Unknown, 0, self.sectors, self.joined()),
        }
        sections
    }

    // Those of layouts 2 and 3. What stands before the slots is drawn sector by sector.
    fn sections_of(&self, plan: Plan) -> [Section; 6] {
        let (front, joined) = (plan.layout.front, self.joined());
        let (first, second) = (plan.gate(Bank::First), plan.gate(Bank::Second));
        [
            Section::of(Heading::Superblock, 0, 1, 1),
            Section::of(self.bank(Bank::First), first, first + front, 1),
            Section::of(self.slots(Bank::First), first + front, second, joined),
            Section::of(self.bank(Bank::Second), second, second + front, 1),
            Section::of(
                self.slots(Bank::Second),
                second + front,
                plan.sectors(),
                joined,
            ),
            self.unused(),
        ]
    }

    // What is behind the layout, in one row.
    fn unused(&self) -> Section {
        let first = self.used();
        let joined = self.sectors.saturating_sub(first).div_ceil(COLUMNS);
        Section::of(Heading::Unused, first, self.sectors, joined)
    }

    fn bank(&self, bank: Bank) -> Heading {
        Heading::Bank {
            number: bank.number(),
            is_live: self.live == Some(bank),
        }
    }

    fn slots(&self, bank: Bank) -> Heading {
        Heading::Slots {
            number: bank.number(),
            is_live: self.live == Some(bank),
        }
    }

    /// What the sectors from one to before another are drawn as, in one cell.
    pub(crate) fn kind_of<D: Device>(
        &self,
        device: &mut D,
        from: u64,
        to: u64,
    ) -> Result<SectorKind, DeviceFault>
        ensures looks { AreLooks (D.state device.old) (D.state device.new) (IsErr result) }
        ensures damaged { IfOk result (λ kind. (kind ≡ SectorKind.Damaged) ↔ HasDamage self.now.damage from to) }
    {
        if self.is_damaged(from, to) {
            return Ok(SectorKind::Damaged);
        }
        match self.plan {
            Some(_) if from >= self.used() => Ok(SectorKind::Unused),
            Some(plan) => greatest_kind(device, plan, from, to),
            None => Ok(SectorKind::Unknown),
        }
    }

    fn is_damaged(&self, from: u64, to: u64) -> bool
        ensures { IsTrue result ↔ HasDamage self.now.damage from to }
    {
        match self.damage {
            Some(place) => from <= place.sector && place.sector < to,
            None => false,
        }
    }
}

/// What the drawing is of: the layout, the number of slots and of sectors, and how many of these
/// one cell stands for.
impl fmt::Display for Map {
    fn fmt<W: fmt::Write>(&self, f: &mut fmt::Formatter<W>) -> fmt::Result {
        write_plan(self.plan, f)?;
        let (sectors, joined) = (self.sectors, self.joined());
        write!(f, "{sectors} sectors of 512 bytes")?;
        match self.plan {
            Some(_) if joined > 1 => write!(
                f,
                "; a cell of slots is {joined} sectors, shown as a record if one is"
            ),
            None if joined > 1 => write!(f, "; a cell is {joined} sectors"),
            _ => Ok(()),
        }
    }
}

// The layout, and how many slots there are.
fn write_plan<W: fmt::Write>(plan: Option<Plan>, f: &mut fmt::Formatter<W>) -> fmt::Result {
    let Some(plan) = plan else {
        return f.write_str("no known layout, ");
    };
    let (version, slots) = (plan.layout.version, plan.slots);
    write!(f, "layout {version}, {slots} slots")?;
    if plan.has_banks() {
        f.write_str(" in each bank")?;
    }
    f.write_str(", ")
}

// The greatest kind of the sectors from one to before another.
fn greatest_kind<D: Device>(
    device: &mut D,
    plan: Plan,
    from: u64,
    to: u64,
) -> Result<SectorKind, DeviceFault>
    ensures looks { AreLooks (D.state device.old) (D.state device.new) (IsErr result) }
    ensures not_damaged { IfOk result (λ kind. kind ≢ SectorKind.Damaged) }
{
    let mut greatest = SectorKind::Unused;
    for sector in from..to {
        greatest = greatest.max(read_kind(device, plan, sector)?);
    }
    Ok(greatest)
}

// The kind of one sector.
fn read_kind<D: Device>(device: &mut D, plan: Plan, sector: u64) -> Result<SectorKind, DeviceFault>
    ensures looks { AreLooks (D.state device.old) (D.state device.new) (IsErr result) }
    ensures not_damaged { IfOk result (λ kind. kind ≢ SectorKind.Damaged) }
{
    if sector == 0 {
        return Ok(SectorKind::Superblock);
    }
    let Some(within) = within_bank(plan, sector - 1) else {
        return Ok(SectorKind::Unused);
    };
    let front = plan.layout.front;
    if within >= front && (within - front) % 2 == 0 {
        return kind_by_gate(
            device,
            sector.saturating_add(1),
            SectorKind::Record,
            SectorKind::Free,
        );
    }
    if within == 0 || within >= front {
        return kind_by_gate(device, sector, SectorKind::OpenGate, SectorKind::ClosedGate);
    }
    Ok(if within == 1 {
        SectorKind::Head
    } else {
        SectorKind::Snapshot
    })
}

// One kind or another, as a gate is open or closed.
fn kind_by_gate<D: Device>(
    device: &mut D,
    gate: u64,
    if_open: SectorKind,
    if_closed: SectorKind,
) -> Result<SectorKind, DeviceFault>
    ensures looks { AreLooks (D.state device.old) (D.state device.new) (IsErr result) }
    ensures one { IfOk result (λ kind. (kind ≡ if_open) ⊎ (kind ≡ if_closed)) }
{
    if read_gate(device, gate)? {
        return Ok(if_open);
    }
    Ok(if_closed)
}

// How many sectors of its bank stand before the one that stands so many behind the superblock's, if
// it is in a bank.
fn within_bank(plan: Plan, behind: u64) -> Option<u64> {
    let size = plan.bank_sectors();
    if behind < size {
        return Some(behind);
    }
    if plan.has_banks() && behind - size < size {
        return Some(behind - size);
    }
    None
}
