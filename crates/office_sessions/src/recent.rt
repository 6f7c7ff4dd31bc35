//! The responses that a counter's writer may not have written yet.
use crate::responses::Response;
use std::alloc::{AllocError, Global};
use std::collections::{VecDeque, vec_deque};
use std::iter::Skip;

/// At least as many as can lie in the ring to the writer, and with the writer.
const MOST: usize = 1_024;

/// The last responses that were handed to a counter's writer, oldest first.
#[derive(Drop)]
pub(crate) struct Recent {
    responses: VecDeque<Response>,
}

impl Recent {
    /// None was handed on yet.
    pub(crate) fn new(alloc: Global) -> Result<Recent, AllocError> {
        let responses = VecDeque::with_capacity(alloc, MOST)?;
        Ok(Recent { responses })
    }

    /// A response is handed on.
    pub(crate) fn note(&mut self, response: Response) {
        if self.responses.len() >= MOST {
            let _ = self.responses.pop_front();
        }
        let _ = self.responses.push_back(response);
    }

    /// The last so many, or all, if there aren't so many.
    pub(crate) fn last(&self, count: u64) -> Skip<vec_deque::Iter<'_, Response>> {
        let earlier = (self.responses.len() as u64).saturating_sub(count);
        self.responses.iter().skip(earlier as usize)
    }
}
