//! Files of a folder, and the copy of a ledger in one.
use crate::journals::with_one_record;
use crate::recovery::recovered;
use crate::scenes::needed;
use device_folder::{Folder, FolderFault, Loss, MemoryFolder, NameLeft};
use ledger_counters::RosterPath;
use ledger_folder::{ArchiveFault, CopyPaths, copy_to_folder};
use sector_device::MemoryDevice;
use std::alloc::Global;
use std::fs::{File, Files};
use std::process::Abort;

// The name of a copy whose next batch is 1.
const COPY: &str = "00000000000000000001";

// Nothing is at these paths: the ledger and the copy are in memory, and there are no counters.
const COPYING: CopyPaths<'static> = CopyPaths {
    ledger: "no/ledger",
    folder: "no/folder",
    counters: RosterPath::Beside("no/ledger"),
};

// Copies a ledger of one batch.
fn copied<R: Files<File = File> + AllocGlobal + Abort>(
    rt: &R,
    folder: &mut MemoryFolder,
) -> Result<u64, ArchiveFault<'static>> {
    let device: MemoryDevice = with_one_record(rt, rt.alloc()).into_device();
    let (_, copied) = copy_to_folder(rt, COPYING, device, folder);
    copied
}

// A power loss that is to leave that name standing for no file.
fn loss_of(rt: &impl Abort, alloc: Global, name: &str) -> Loss {
    let name = NameLeft {
        name: needed(rt, name.to_owned(alloc)),
        file: None,
    };
    let names = needed(rt, vec![in alloc; name]);
    let files = Vec::new(alloc);
    Loss { names, files }
}

#[test]
fn a_copy_outlives_a_power_loss_with_all_its_ledger_has(rt: HostRuntime) {
    let alloc = rt.alloc();
    let mut folder = MemoryFolder::new(alloc);
    assert!(rt; needed(&rt, copied(&rt, &mut folder)) == 1);
    assert!(rt; matches!(copied(&rt, &mut folder), Err(ArchiveFault::Occupied(_))));
    let mut left = folder.crash(&loss_of(&rt, alloc, COPY));
    assert!(rt; left.file_of("unfinished").is_none());
    let found = recovered(&rt, alloc, needed(&rt, left.open(COPY)));
    assert!(rt; (found.journal.next(), found.ledger.balance(1)) == (1, Some(500)));
}

#[test]
fn a_name_that_is_not_synced_may_be_lost(rt: HostRuntime) {
    let alloc = rt.alloc();
    let mut folder = MemoryFolder::new(alloc);
    let file = needed(&rt, folder.make("ledger", 1));
    needed(&rt, folder.keep(file));
    assert!(rt; folder.make("ledger", 1).err() == Some(FolderFault::Exists));
    let left = folder.crash(&loss_of(&rt, alloc, "ledger"));
    assert!(rt; left.file_of("ledger").is_none());
}
