//! What a script has in hand, and whom a line is for.
use crate::archives::{catch_up, new_archive};
use crate::callers::call_in_threads;
use crate::clerks::{self, open_clerk};
use crate::days::{have_day, hold};
use crate::desks::{self, Pair, new_desk};
use crate::offices::{OfficeScript, plan_office, play};
use crate::spans::have_spans;
use office_day::{HeldEntries, MemoryArchive};
use office_sessions::Look;
use std::alloc::{AllocError, Global};
use std::mem;
use std::sync::Wait;
use std::thread::Threads;
use test_words::{Bench, Hand, Said, Scene, Told};
use turn_clerk::{Clerk, Event};

/// What is in hand: a scene without a clerk, or what stands on a line of stations.
#[derive(Drop)]
pub enum Stage {
    Scene(Scene),
    Desk(Pair),
    Clerk(Clerk<Bench>),
    Office(OfficeScript),
}

/// What earlier lines have put together for a call.
#[derive(Drop)]
pub struct Supply {
    /// What calls that need no clerk take.
    pub hand: Hand,
    /// The events of a run.
    pub events: Vec<Event>,
    /// What stations of a day hold.
    pub held: Vec<HeldEntries>,
    pub archive: Option<MemoryArchive>,
    /// A look at the postings of a station, up to a reference.
    pub look: Option<(Look, u8, u64)>,
}

/// A console: it has a device in hand, or what stands on it.
#[derive(Drop)]
pub struct Console {
    stage: Stage,
    supply: Supply,
    told: Told,
}

impl Console {
    /// One with nothing in hand.
    ///
    /// # Errors
    /// Out of memory.
    pub fn new(alloc: Global) -> Result<Console, AllocError> {
        let hand = Hand::new(alloc)?;
        let told = Told::new(alloc)?;
        Ok(Console::with(alloc, hand, told))
    }

    // The same, once all that takes memory is there: whoever leaves early has nothing else to drop.
    fn with(alloc: Global, hand: Hand, told: Told) -> Console {
        Console {
            stage: Stage::Scene(Scene::Nothing),
            supply: Supply {
                hand,
                events: Vec::new(alloc),
                held: Vec::new(alloc),
                archive: None,
                look: None,
            },
            told,
        }
    }

    /// Does what a line asks for; one that begins with `#` asks for nothing. A line `mark X` is
    /// told as it is, and asks for what was told, which the answer says.
    pub fn run<R: Threads + Wait + Sync>(&mut self, rt: &R, line: &str) -> bool {
        let line = line.trim_end();
        let mut said = Said::of(line);
        let name = said.word().unwrap_or("#");
        if name == "mark" {
            self.told.line(line);
            return true;
        }
        if !name.starts_with('#') {
            let stage = mem::replace(&mut self.stage, Stage::Scene(Scene::Nothing));
            self.stage = next(
                rt,
                stage,
                line,
                &mut self.supply,
                name,
                &mut said,
                &mut self.told,
            );
        }
        false
    }

    /// What was told since it was last forgotten.
    pub fn told(&self) -> &str {
        self.told.text()
    }

    /// Forgets what was told.
    pub fn forget_told(&mut self) {
        self.told.clear();
    }
}

// What is in hand behind a line.
fn next<R: Threads + Wait + Sync>(
    rt: &R,
    stage: Stage,
    line: &str,
    supply: &mut Supply,
    name: &str,
    said: &mut Said<'_>,
    told: &mut Told,
) -> Stage {
    match stage {
        Stage::Office(planned) => plan_or_play(rt, planned, line, supply, name, told),
        Stage::Scene(Scene::Device(device)) => use_device(rt, device, supply, name, said, told),
        stage => stage.run(supply, name, said, told),
    }
}

// The next line of an office, or its end.
fn plan_or_play<R: Wait>(
    rt: &R,
    mut planned: OfficeScript,
    line: &str,
    supply: &mut Supply,
    name: &str,
    told: &mut Told,
) -> Stage {
    if name == "close" {
        return play(rt, planned, supply, told);
    }
    planned.add(line, told);
    Stage::Office(planned)
}

// A word of a device, in threads or not.
fn use_device<R: Threads + Wait + Sync>(
    rt: &R,
    device: Bench,
    supply: &mut Supply,
    name: &str,
    said: &mut Said<'_>,
    told: &mut Told,
) -> Stage {
    match name {
        "day" => have_day(rt, device, supply, said, told),
        "callers" | "unclosed" | "reclosed" | "stations" => call_in_threads(
            rt, device, supply, name, said, told,
        ),
        "spans" => have_spans(rt, device, supply, said, told),
        _ => begin_on(device, supply, name, said, told),
    }
}

// What may begin on a device, or be put together for it.
fn begin_on(
    device: Bench,
    supply: &mut Supply,
    name: &str,
    said: &mut Said<'_>,
    told: &mut Told,
) -> Stage {
    match name {
        "clerk" => return open_clerk(device, supply, said, told),
        "office" => return plan_office(device, supply, said, told),
        "catch_up" => return catch_up(device, supply, told),
        "hold" => hold(supply, said, told),
        "archive" => new_archive(supply, said, told),
        _ => return Stage::Scene(Scene::Device(device).run(&mut supply.hand, name, said, told)),
    }
    Stage::alone(device)
}

impl Stage {
    /// A device on which nothing stands.
    pub fn alone(device: Bench) -> Stage {
        Stage::Scene(Scene::Device(device))
    }

    // Does what the word asks for.
    fn run(self, supply: &mut Supply, name: &str, said: &mut Said<'_>, told: &mut Told) -> Stage {
        match name {
            "nothing" | "device" | "other" => {
                Stage::Scene(self.scene().run(&mut supply.hand, name, said, told))
            }
            "close" => self.closed(),
            _ => self.ask(supply, name, said, told),
        }
    }

    // Asks what is in hand.
    fn ask(self, supply: &mut Supply, name: &str, said: &mut Said<'_>, told: &mut Told) -> Stage {
        match self {
            Stage::Desk(pair) => desks::run(pair, supply, name, said, told),
            Stage::Clerk(clerk) => Stage::Clerk(clerks::run(clerk, supply, name, said, told)),
            Stage::Scene(Scene::Nothing) if name == "desk" => new_desk(supply, said, told),
            stage => Stage::Scene(stage.scene().run(&mut supply.hand, name, said, told)),
        }
    }

    // What is left without a clerk, an office or a desk.
    fn scene(self) -> Scene {
        match self {
            Stage::Scene(scene) => scene,
            _ => Scene::Nothing,
        }
    }

    // The device alone, if something stands on one.
    fn closed(self) -> Stage {
        match self {
            Stage::Clerk(clerk) => Stage::alone(clerk.into_device()),
            Stage::Scene(scene) => Stage::Scene(scene.closed()),
            stage => stage,
        }
    }
}
