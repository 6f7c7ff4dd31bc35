//! Closing an office from outside.
use crate::counter_fault::{CounterFault, CounterFile, CounterRefusal};
use crate::speaking::Speaker;
use std::fs::{File, Files};
use std::thread::sleep;
use std::time::{Clock, Duration};

/// What is said at the counter. The first line is wrong, whatever part of a line a client has left
/// before it, so that no request comes of that part; the second one is for an office that drops all
/// until it is greeted.
const SAID: &[u8] = b" ?\nhello 0\nclose\n";

/// How often in a second it is looked whether the office has ended.
const LOOKS: u64 = 50;

/// How often in a second a counter is tried that another client has: each time takes as long as the
/// lock's two tries.
const TRIES: u64 = 10;

/// Asks the office that has a counter to close, and waits until it has ended, for so many seconds
/// at most. If another client speaks at the counter, it waits as long for that one's end first. The
/// folder is the counter's. What was asked at it before is answered first. No answer is read.
///
/// # Errors
/// [`CounterFault`].
pub fn close_office<'a, R: Files<File = File> + AllocGlobal + Clock>(
    rt: &R,
    folder: &'a str,
    seconds: u64,
) -> Result<(), CounterFault<'a>> {
    let mut speaker = speaker_within(rt, folder, seconds)?;
    speaker.say(SAID)?;
    for _ in 0..seconds.saturating_mul(LOOKS) {
        if !speaker.is_heard()? {
            return Ok(());
        }
        sleep(rt, Duration::from_millis(1_000 / LOOKS));
    }
    Err(CounterFault::new(folder, CounterFile::Folder, CounterRefusal::StillOpen))
}

// Who speaks at the counter, once no other client does.
fn speaker_within<'a, R: Files<File = File> + AllocGlobal + Clock>(
    rt: &R,
    folder: &'a str,
    seconds: u64,
) -> Result<Speaker<'a>, CounterFault<'a>> {
    for _ in 0..seconds.saturating_mul(TRIES) {
        match Speaker::at(rt, folder) {
            Err(
                CounterFault {
                    refusal: CounterRefusal::HasClient,
                    ..
                },
            ) => {}
            speaker => return speaker,
        }
    }
    Speaker::at(rt, folder)
}
