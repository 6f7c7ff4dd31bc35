/// A call of a device, with the sector that it is about.
#[derive(Clone, Copy, Debug, PartialEq, Eq)]
pub enum Call {
    /// A read of this sector.
    Read(u64),
    /// A write of this sector.
    Write(u64),
    /// A sync.
    Sync,
}
