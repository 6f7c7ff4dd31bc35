//! The thread that writes what a counter is told.
use crate::identity::Identity;
use crate::replies::OfficeLife;
use crate::responses::Response;
use crate::scheduler::Scheduler;
use crate::wakers::Wakers;
use rtrb::Consumer;
use std::alloc::{AllocError, Global};
use std::io::Write;
use std::sync::Wait;
use text_streams::write_all;

/// How many bytes are gathered at most before they are written.
const FULL: usize = 4_096;

/// The most bytes that one response takes.
const LONGEST: usize = 1_024;

/// What is written where there is no memory for a response.
const NO_MEMORY: &[u8] = b"out of memory\n";

/// What writes to a counter.
#[derive(Drop)]
pub(crate) struct Writer<O: Write> {
    output: O,
    // What is written where a counter may say its next line.
    prompt: &'static str,
    identity: Identity,
    text: String,
    responses: Consumer<Response>,
    // Whether the stream has failed. Then nothing is written any more.
    has_failed: bool,
}

impl<O: Write + Drop> Writer<O> {
    /// Before the first response.
    pub(crate) fn new(
        alloc: Global,
        output: O,
        prompt: &'static str,
        identity: Identity,
        responses: Consumer<Response>,
    ) -> Result<Writer<O>, AllocError> {
        Ok(Writer {
            output,
            prompt,
            identity,
            text: String::with_capacity(alloc, FULL + LONGEST)?,
            responses,
            has_failed: false,
        })
    }

    /// Writes each response as it comes.
    pub(crate) fn write_all<L: OfficeLife, R: Wait>(
        &mut self,
        rt: &R,
        wakers: &Wakers,
        scheduler: &Scheduler<L>,
    ) {
        self.write(self.prompt.as_bytes());
        for _ in rt.forever() {
            let count = self.gather();
            if count == 0 {
                wakers.writer.park(rt);
                continue;
            }
            self.write_gathered();
            wakers.note_written(count);
            scheduler.wake_dispatcher();
        }
    }

    // Gathers the responses that are there, as far as there is room, and answers how many.
    fn gather(&mut self) -> u64 {
        self.text.clear();
        let mut count: u64 = 0;
        for _ in 0..FULL {
            if self.text.len() >= FULL {
                break;
            }
            let Ok(response) = self.responses.pop() else {
                break;
            };
            count = count.saturating_add(1);
            if self.add(response).is_err() {
                self.write(NO_MEMORY);
            }
        }
        count
    }

    // Adds the line of a response, or its lines, to what is gathered.
    fn add(&mut self, response: Response) -> Result<(), AllocError> {
        match response {
            Response::Name => writeln!(self.text, "name {}", self.identity),
            response => writeln!(self.text, "{response}"),
        }
    }

    // Writes what is gathered, and the prompt.
    fn write_gathered(&mut self) {
        if !self.has_failed && write_all(&mut self.output, self.text.as_bytes()).is_err() {
            self.has_failed = true;
        }
        self.write(self.prompt.as_bytes());
    }

    // Writes these bytes, unless the stream has failed.
    fn write(&mut self, bytes: &[u8]) {
        if !self.has_failed && write_all(&mut self.output, bytes).is_err() {
            self.has_failed = true;
        }
    }
}
