//! What is wrong with a ledger that isn't sound.
use journal_recovery::OpenRefusal;
use ledger_damage::Place;
use std::fmt;

/// What is wrong, and where.
#[derive(Clone, Copy, Debug, PartialEq, Eq)]
pub struct Wrong {
    /// Why there is no ledger.
    pub refusal: OpenRefusal,
    /// Where the first byte is that is wrong, if it is known.
    pub place: Option<Place>,
}

/// The cause, and the place, which says more than the cause's slot.
impl fmt::Display for Wrong {
    fn fmt<W: fmt::Write>(&self, f: &mut fmt::Formatter<W>) -> fmt::Result {
        match self.refusal {
            OpenRefusal::Damaged { cause, .. } => write!(f, "{cause}")?,
            refusal => write!(f, "{refusal}")?,
        }
        match self.place {
            Some(place) => write_place(place, f),
            None => Ok(()),
        }
    }
}

fn write_place<W: fmt::Write>(place: Place, f: &mut fmt::Formatter<W>) -> fmt::Result {
    f.write_str(" (")?;
    if let Some(bank) = place.bank {
        write!(f, "bank {bank}, ")?;
    }
    if let Some(slot) = place.slot {
        write!(f, "slot {slot}, ")?;
    }
    write!(f, "sector {}, byte {})", place.sector, place.offset())
}
