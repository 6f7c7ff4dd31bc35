//! How the two sides of the rings are shown to a programmer. Of the rings themselves nothing is.
use crate::desk_end::Desk;
use crate::feed::Feed;
use std::fmt;

impl fmt::Debug for Feed {
    fn fmt<W: fmt::Write>(&self, f: &mut fmt::Formatter<W>) -> fmt::Result {
        f.debug_struct("Feed")
            .field("next", &self.next)
            .finish_non_exhaustive()
    }
}

impl fmt::Debug for Desk {
    fn fmt<W: fmt::Write>(&self, f: &mut fmt::Formatter<W>) -> fmt::Result {
        f.debug_struct("Desk")
            .field("held", &self.held.asks().len())
            .finish_non_exhaustive()
    }
}
