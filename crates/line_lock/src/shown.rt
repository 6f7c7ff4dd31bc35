//! How an office and its seats are shown to a programmer. Of what lies under the office's lock
//! nothing is.
use crate::office::Office;
use crate::opened_on::OpenedOn;
use crate::seat::Seat;
use sector_device::Device;
use std::fmt;
use std::sync::ledger::Ledger as Count;

impl<D: Device, L: Count + OpenedOn> fmt::Debug for Office<D, L> {
    fn fmt<W: fmt::Write>(&self, f: &mut fmt::Formatter<W>) -> fmt::Result {
        f.debug_struct("Office").finish_non_exhaustive()
    }
}

impl<L: Count> fmt::Debug for Seat<L> {
    fn fmt<W: fmt::Write>(&self, f: &mut fmt::Formatter<W>) -> fmt::Result {
        f.debug_struct("Seat")
            .field("station", &self.station())
            .field("turns", &self.turns().len())
            .field("denied", &self.denied())
            .field("reached", &self.reached())
            .field("told", &self.told())
            .field("was_faulted", &self.was_faulted())
            .finish_non_exhaustive()
    }
}
