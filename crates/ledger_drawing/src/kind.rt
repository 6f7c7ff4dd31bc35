//! What a cell of the drawing stands for.
use std::fmt;

/// What a sector is drawn as. Of the sectors that one cell stands for the greatest is drawn.
#[derive(Clone, Copy, Debug, PartialEq, Eq, PartialOrd, Ord)]
pub(crate) enum SectorKind {
    Unknown,
    Unused,
    ClosedGate,
    /// A body whose gate is closed.
    Free,
    OpenGate,
    /// A body whose gate is open.
    Record,
    Snapshot,
    Head,
    Superblock,
    Damaged,
}

impl SectorKind {
    /// All kinds, in the order of the legend.
    pub(crate) const ALL: [SectorKind; 10] = [
        SectorKind::Damaged,
        SectorKind::Superblock,
        SectorKind::Head,
        SectorKind::Snapshot,
        SectorKind::Record,
        SectorKind::OpenGate,
        SectorKind::Free,
        SectorKind::ClosedGate,
        SectorKind::Unused,
        SectorKind::Unknown,
    ];

    /// What the legend says of it.
    pub(crate) fn label(self) -> &'static str {
        match self {
            SectorKind::Damaged => "damaged",
            SectorKind::Superblock => "superblock",
            SectorKind::Head => "head of a bank",
            SectorKind::Snapshot => "snapshot",
            SectorKind::Record => "body, record",
            SectorKind::OpenGate => "gate, open",
            SectorKind::Free => "body, free",
            SectorKind::ClosedGate => "gate, closed",
            SectorKind::Unused => "not used",
            SectorKind::Unknown => "not known",
        }
    }
}

/// The name of its class in the style.
impl fmt::Display for SectorKind {
    fn fmt<W: fmt::Write>(&self, f: &mut fmt::Formatter<W>) -> fmt::Result {
        f.write_str(match self {
            SectorKind::Damaged => "damaged",
            SectorKind::Superblock => "superblock",
            SectorKind::Head => "head",
            SectorKind::Snapshot => "snapshot",
            SectorKind::Record => "record",
            SectorKind::OpenGate => "open",
            SectorKind::Free => "free",
            SectorKind::ClosedGate => "closed",
            SectorKind::Unused => "unused",
            SectorKind::Unknown => "unknown",
        })
    }
}
