//! The commands that a CDB can name.

/// A range of blocks.
#[derive(Clone, Copy)]
pub struct Extent {
    pub block: u64,
    pub count: u32,
}

/// A command with its fields judged. FUA asks that the medium itself is read, or written.
#[derive(Clone, Copy)]
pub enum Command {
    TestUnitReady,
    ReadCapacity,
    Read { fua: bool, extent: Extent },
    Write { fua: bool, extent: Extent },
}
