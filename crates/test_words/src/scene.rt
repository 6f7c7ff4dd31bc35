//! What a script has in hand that needs no clerk, and which words it is asked.
use crate::bench::Bench;
use crate::entries::no_entries;
use crate::said::Said;
use crate::stacked::Stacked;
use crate::switch::Switch;
use crate::told::Told;
use crate::{builders, devices, journals, ledgers, lines, listings, stacked};
use four_state::Line;
use gate_journal::{ACCOUNTS, Journal, JournalBuilder, Snapshot};
use ledger_reading::{Listing, Seam};
use sector_device::Picks;
use std::alloc::{AllocError, Global};
use std::mem;
use std::sync::Arc;
use turn_ledger::{Entry, Ledger};

/// A device, what stands on it, or what needs none.
#[derive(Drop)]
pub enum Scene {
    Nothing,
    Device(Bench),
    Line(Line),
    Ledger(Ledger),
    Journal(Journal<Bench>),
    JournalBuilder(JournalBuilder<Bench>),
    Listing(Listing<Bench>),
    Stacked(Stacked),
}

/// What earlier lines have put together for a call.
#[derive(Drop)]
pub struct Hand {
    /// Where calls take their memory.
    pub alloc: Global,
    /// The switch of the device in hand.
    pub switch: Arc<Switch>,
    /// The other device, and its switch.
    pub other: Option<Bench>,
    pub other_switch: Arc<Switch>,
    /// The entries of the line.
    pub entries: Vec<Entry>,
    /// What the next power loss leaves.
    pub picks: Picks,
    /// The accounts of the next journal or checkpoint.
    pub snapshot: Box<Snapshot>,
    /// Where a listing ended.
    pub seam: Option<Seam>,
}

impl Hand {
    /// Nothing yet.
    ///
    /// # Errors
    /// Out of memory.
    pub fn new(alloc: Global) -> Result<Hand, AllocError> {
        let switch = Arc::new(alloc, Switch::new())?;
        let other_switch = Arc::new(alloc, Switch::new())?;
        let entries = no_entries(alloc)?;
        let snapshot = no_accounts(alloc)?;
        Ok(Hand {
            alloc,
            switch,
            other: None,
            other_switch,
            entries,
            picks: Picks {
                list: Vec::new(alloc),
            },
            snapshot,
            seam: None,
        })
    }
}

// Accounts that hold nothing, and none of which is sealed.
fn no_accounts(alloc: Global) -> Result<Box<Snapshot>, AllocError> {
    let snapshot = Snapshot {
        balances: [0; ACCOUNTS],
        sealed: [false; ACCOUNTS],
    };
    Ok(Box::new(alloc, snapshot)?)
}

impl Scene {
    /// Does what a word asks for, and answers what is in hand then.
    pub fn run(self, hand: &mut Hand, name: &str, said: &mut Said<'_>, told: &mut Told) -> Scene {
        match name {
            "nothing" => Scene::Nothing,
            "device" => devices::new_device(hand, said, told),
            "other" => change(self.device(), hand),
            "close" => self.closed(),
            _ => self.ask(hand, name, said, told),
        }
    }

    // Asks what is in hand.
    fn ask(self, hand: &mut Hand, name: &str, said: &mut Said<'_>, told: &mut Told) -> Scene {
        match self {
            Scene::Device(device) => devices::run(device, hand, name, said, told),
            Scene::JournalBuilder(builder) => builders::run(builder, hand, name, said, told),
            Scene::Journal(mut journal) => {
                journals::ask(&mut journal, hand, name, said, told);
                Scene::Journal(journal)
            }
            Scene::Listing(mut listing) => {
                listings::ask(&mut listing, hand, name, said, told);
                Scene::Listing(listing)
            }
            Scene::Stacked(mut stacked) => {
                stacked::ask(&mut stacked, hand, name, said, told);
                Scene::Stacked(stacked)
            }
            Scene::Line(line) => lines::run(line, hand, name, said, told),
            Scene::Ledger(mut ledger) => {
                ledgers::ask(&mut ledger, hand, name, said, told);
                Scene::Ledger(ledger)
            }
            Scene::Nothing => begin(hand, name, said, told),
        }
    }

    // The device, if nothing stands on one.
    fn device(self) -> Option<Bench> {
        match self {
            Scene::Device(device) => Some(device),
            _ => None,
        }
    }

    /// The device alone, if something stands on one.
    pub fn closed(self) -> Scene {
        match self {
            Scene::Journal(journal) => Scene::Device(journal.into_device()),
            Scene::JournalBuilder(builder) => Scene::Device(builder.into_device()),
            Scene::Listing(listing) => Scene::Device(listing.into_device()),
            Scene::Stacked(stacked) => Scene::Device(stacked.into_device()),
            scene => scene,
        }
    }
}

// What may be in hand without a device.
fn begin(hand: &mut Hand, name: &str, said: &mut Said<'_>, told: &mut Told) -> Scene {
    match name {
        "line" => lines::new_line(said, told),
        "ledger" => ledgers::new_ledger(hand, told),
        _ => {
            told.line("no device");
            Scene::Nothing
        }
    }
}

// `other`: the other device is in hand from now on, and the one in hand is the other.
fn change(device: Option<Bench>, hand: &mut Hand) -> Scene {
    mem::swap(&mut hand.switch, &mut hand.other_switch);
    match mem::replace(&mut hand.other, device) {
        Some(device) => Scene::Device(device),
        None => Scene::Nothing,
    }
}
