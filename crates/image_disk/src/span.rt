//! The blocks that a command moves.

/// The first block, and how many there are. Whether they lie on a disk is known of the disk alone, which knows no CDB and so no
/// range of one.
#[derive(Clone, Copy)]
pub(crate) struct Span {
    pub(crate) block: u64,
    pub(crate) count: u32,
}
