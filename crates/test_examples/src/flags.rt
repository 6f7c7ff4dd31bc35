//! The flags of a held call are made, also where memory for them was refused before.
use fault_injector::HeldFlags;
use std::sync::Arc;
use std::sync::atomic::Ordering;
use std::test::Fail;

// `checks/refused_memory.sh` refuses each request for memory in turn, and looks whether this is
// told.
#[test]
fn flags_are_made(rt: HostRuntime) -> Result<(), Fail> {
    let (rt, alloc) = (&rt, rt.alloc());
    let flags = match Arc::new(alloc, HeldFlags::new()) {
        Ok(flags) => flags,
        Err(_) => {
            println!(rt; "told HeldFlags in an Arc").expect(rt, "an output");
            Arc::new(alloc, HeldFlags::new())?
        }
    };
    assert!(rt; !flags.begun.load(Ordering::SeqCst) && !flags.go.load(Ordering::SeqCst));
    Ok(())
}
