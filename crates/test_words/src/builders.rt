//! The words of a journal that is being filled.
use crate::bench::Bench;
use crate::devices::set_fault;
use crate::journals::read_record;
use crate::said::Said;
use crate::scene::{Hand, Scene};
use crate::told::Told;
use gate_journal::JournalBuilder;

/// `fill SLOTS BASE`: begins a journal on the device, with the accounts in hand.
pub fn begin(device: Bench, hand: &mut Hand, said: &mut Said<'_>, told: &mut Told) -> Scene {
    let (slots, base) = (said.number(), said.number());
    if slots == 0 {
        told.line("not asked: no slots");
        return Scene::Device(device);
    }
    match JournalBuilder::begin(device, slots, base, &hand.snapshot) {
        Ok(builder) => Scene::JournalBuilder(builder),
        Err(refused) => Scene::Device(told.handed_back(refused)),
    }
}

/// A word of a journal that is being filled: `put STATION COUNT HEX`, `numbers`, `finish`.
pub fn run(
    builder: JournalBuilder<Bench>,
    hand: &mut Hand,
    name: &str,
    said: &mut Said<'_>,
    told: &mut Told,
) -> Scene {
    match name {
        "put" => return put(builder, said, told),
        "finish" => return finish(builder, told),
        "numbers" => told.named("next, room", &(builder.next(), builder.room())),
        "fault" => set_fault(hand, said, told),
        _ => told.line("no such word of a builder"),
    }
    Scene::JournalBuilder(builder)
}

fn finish(builder: JournalBuilder<Bench>, told: &mut Told) -> Scene {
    match builder.finish() {
        Ok(device) => Scene::Device(device),
        Err(refused) => Scene::Device(told.handed_back(refused)),
    }
}

fn put(builder: JournalBuilder<Bench>, said: &mut Said<'_>, told: &mut Told) -> Scene {
    let Some(record) = read_record(said) else {
        told.line("no record");
        return Scene::JournalBuilder(builder);
    };
    if builder.room() == 0 || builder.next() == u64::MAX {
        told.line("not asked: no room");
        return Scene::JournalBuilder(builder);
    }
    match builder.put(&record) {
        Ok(builder) => Scene::JournalBuilder(builder),
        Err(refused) => Scene::Device(told.handed_back(refused)),
    }
}
