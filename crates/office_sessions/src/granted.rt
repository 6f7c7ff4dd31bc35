//! Whether the system grants an office its threads.
use std::alloc::{AllocError, Global};
use std::sync::{Arc, Wait};
use std::thread::{JoinHandle, Parker, Threads, spawn};

/// A thread that waits until it is told to end.
#[derive(Drop)]
struct IdleThread {
    parker: Arc<Parker>,
    thread: JoinHandle<()>,
}

impl IdleThread {
    // None if the system refuses the thread.
    fn start<R: Threads + Wait + Send + Clone + Drop + 'static>(
        rt: &R,
        alloc: Global,
    ) -> Result<Option<IdleThread>, AllocError> {
        let parker = Arc::new(alloc, Parker::new())?;
        let (own, theirs) = (rt.clone()?, Arc::try_clone(&parker)?);
        match spawn(rt, move || theirs.park(&own)) {
            Ok(thread) => Ok(Some(IdleThread { parker, thread })),
            Err(_) => Ok(None),
        }
    }

    fn end<R: Threads + Wait>(self, rt: &R) {
        let IdleThread { parker, thread } = self;
        parker.unpark();
        thread.join(rt)
    }
}

/// Whether the system grants all threads of an office for so many stations and counters at once.
/// They are started, and end again.
///
/// # Errors
/// Out of memory.
pub fn are_threads_granted<R: Threads + Wait + Send + Clone + Drop + 'static>(
    rt: &R,
    alloc: Global,
    stations: u64,
    counters: usize,
) -> Result<bool, AllocError> {
    // two for each counter, one for each station, and the dispatcher's
    let wanted = counters
        .saturating_mul(2)
        .saturating_add(stations as usize)
        .saturating_add(1);
    let mut waiting = Vec::with_capacity(alloc, wanted)?;
    let started = start(rt, alloc, wanted, &mut waiting);
    let granted = waiting.len();
    for thread in waiting {
        thread.end(rt);
    }
    started?;
    Ok(granted == wanted)
}

// Starts so many threads, or fewer, if the system refuses one.
fn start<R: Threads + Wait + Send + Clone + Drop + 'static>(
    rt: &R,
    alloc: Global,
    wanted: usize,
    waiting: &mut Vec<IdleThread>,
) -> Result<(), AllocError> {
    for _ in 0..wanted {
        let Some(thread) = IdleThread::start(rt, alloc)? else {
            break;
        };
        waiting.push(thread)?;
    }
    Ok(())
}
