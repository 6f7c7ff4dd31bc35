//! The calls of a device, also of one that stands before the device in hand: a buffer for its
//! reads, one that stops behind a failed sync, and one that is only read.
use crate::bench::Bench;
use crate::devices::{read_sector, set_fault};
use crate::said::Said;
use crate::scene::{Hand, Scene};
use crate::told::Told;
use device_files::{FailStop, ReadAhead, ReadBuffer, ReadOnly};
use sector_device::{Device, SECTOR};

/// What stands before the device in hand.
#[derive(Drop)]
pub enum Stacked {
    Ahead(ReadAhead<Bench>),
    Stop(FailStop<Bench>),
    Only(ReadOnly<Bench>),
}

impl Stacked {
    /// The device behind it.
    pub fn into_device(self) -> Bench {
        match self {
            Stacked::Ahead(device) => device.into_inner(),
            Stacked::Stop(device) => device.into_inner(),
            Stacked::Only(device) => device.into_inner(),
        }
    }
}

/// `ahead`: an empty buffer before the device. `stop`, `only`: one that stops, and one that is only
/// read, once the device is synced.
pub fn stack(device: Bench, hand: &mut Hand, name: &str, told: &mut Told) -> Scene {
    match name {
        "ahead" => ahead(device, hand, told),
        "stop" => Scene::Stacked(Stacked::Stop(FailStop::new(device))),
        _ => only(device, told),
    }
}

fn ahead(device: Bench, hand: &mut Hand, told: &mut Told) -> Scene {
    match ReadBuffer::new(hand.alloc) {
        Ok(buffer) => Scene::Stacked(Stacked::Ahead(ReadAhead::new(device, buffer))),
        Err(error) => Scene::Device(told.handed_back((device, error))),
    }
}

fn only(mut device: Bench, told: &mut Told) -> Scene {
    match device.sync() {
        Ok(()) => Scene::Stacked(Stacked::Only(ReadOnly::new(device))),
        Err(fault) => Scene::Device(told.handed_back((device, fault))),
    }
}

/// A word of what stands before the device.
pub fn ask(
    stacked: &mut Stacked,
    hand: &mut Hand,
    name: &str,
    said: &mut Said<'_>,
    told: &mut Told,
) {
    if name == "fault" {
        set_fault(hand, said, told);
        return;
    }
    match stacked {
        Stacked::Ahead(device) => call(device, name, said, told),
        Stacked::Stop(device) => call(device, name, said, told),
        Stacked::Only(device) => call(device, name, said, told),
    }
}

/// A call of a device.
pub fn call<D: Device>(device: &mut D, name: &str, said: &mut Said<'_>, told: &mut Told) {
    match name {
        "read" => read(device, said, told),
        "write" => write(device, said, told),
        "sync" => told.done(&device.sync()),
        _ => told.line("no such word of this device"),
    }
}

// `read AT`
fn read<D: Device>(device: &mut D, said: &mut Said<'_>, told: &mut Told) {
    let at = said.number();
    if !said.is_right(told) {
        return;
    }
    if at >= device.sectors() {
        told.line("not asked: no such sector");
        return;
    }
    let mut sector = [0; SECTOR];
    match device.read(at, &mut sector) {
        Ok(()) => told.bytes(&sector),
        Err(fault) => told.refused(&fault),
    }
}

// `write AT HEX`: a sector that begins with these bytes, of which the last fills it.
fn write<D: Device>(device: &mut D, said: &mut Said<'_>, told: &mut Told) {
    let at = said.number();
    let sector = read_sector(said);
    if !said.is_right(told) {
        return;
    }
    if at >= device.sectors() {
        told.line("not asked: no such sector");
        return;
    }
    told.done(&device.write(at, &sector));
}
