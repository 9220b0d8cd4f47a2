//! The acts of a session.

#[derive(Drop)]
pub enum Act {
    /// Makes a disk.
    Disk(DiskPlan),
    /// Puts a port before the disk, which lets through at most so many blocks at once.
    Port(u32),
    /// Puts the disk into the bay.
    Attach,
    /// Takes it out.
    Detach,
    /// Calls the unit.
    Call(Call),
}

/// A disk of zeros to make, and those of its blocks that cannot be read.
#[derive(Drop)]
pub struct DiskPlan {
    pub blocks: u32,
    pub bad: Vec<u32>,
    pub kind: DiskKind,
}

#[derive(Clone, Copy)]
pub enum DiskKind {
    Plain,
    /// Its cache on or off at first, and whether it takes the write through it.
    Caching { cache: bool, through: bool },
}

/// A call of the unit: the CDB, data-out as `out` bytes of `fill`, data-in of `into` bytes, and how many of them to show.
#[derive(Drop)]
pub struct Call {
    pub cdb: Vec<u8>,
    pub out: usize,
    pub fill: u8,
    pub into: usize,
    pub show: usize,
}
