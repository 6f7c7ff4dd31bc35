//! The words of a feed and its desk, which stand alone.
ghost use Rattle.station_desk.specs.Rings.{AreTogether};

use crate::console::{Stage, Supply};
use station_desk::{Desk, Feed, Reconciled, desk, reconcile};
use test_words::{Said, Scene, Told, read_entries};

/// A feed and its desk.
#[derive(Drop)]
pub struct Pair {
    feed: Feed,
    desk: Desk,
    ghost together: { AreTogether feed desk },
}

/// `desk CAPACITY`: a feed and its desk in the place of what was in hand.
pub fn new_desk(supply: &mut Supply, said: &mut Said<'_>, told: &mut Told) -> Stage {
    let capacity = said.number();
    if capacity == 0 || capacity > 4_096 {
        told.line("not asked: no such capacity");
        return Stage::Scene(Scene::Nothing);
    }
    match desk(supply.hand.alloc, capacity as usize) {
        Ok((feed, desk)) => Stage::Desk(Pair { feed, desk }),
        Err(error) => {
            told.refused(&error);
            Stage::Scene(Scene::Nothing)
        }
    }
}

/// A word of a feed and its desk.
pub fn run(
    mut pair: Pair,
    supply: &mut Supply,
    name: &str,
    said: &mut Said<'_>,
    told: &mut Told,
) -> Stage {
    match name {
        "submit" => submit(&mut pair, supply, said, told),
        "answer" => told.value(&pair.feed.answer()),
        "gather" => told.value(&pair.desk.gather()),
        "give_up" => pair.desk.give_up(),
        "reconcile" => return reconciled(pair, supply, told),
        _ => told.line("no such word of a desk"),
    }
    Stage::Desk(pair)
}

// `submit ENTRY..`
fn submit(pair: &mut Pair, supply: &mut Supply, said: &mut Said<'_>, told: &mut Told) {
    read_entries(said, &mut supply.hand.entries);
    for entry in supply.hand.entries.iter() {
        told.value(&pair.feed.submit(*entry));
    }
}

// `reconcile`: what became of each request. Nothing is in hand then.
fn reconciled(pair: Pair, supply: &mut Supply, told: &mut Told) -> Stage {
    let Pair { feed, desk } = pair;
    match reconcile(supply.hand.alloc, feed, desk) {
        Ok(all) => {
            tell_reconciled(&all, told);
            Stage::Scene(Scene::Nothing)
        }
        Err((feed, desk, error)) => {
            told.refused(&error);
            Stage::Desk(Pair { feed, desk })
        }
    }
}

fn tell_reconciled(all: &Reconciled, told: &mut Told) {
    told.named("submitted, collected", &(all.submitted, all.collected));
    told.value(&all.answers);
    told.value(&all.unanswered);
}
