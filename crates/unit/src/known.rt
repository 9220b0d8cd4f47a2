//! What a unit remembers of its drive.

ghost use Rattle.std.specs.Prelude.{◌^◌, ◌<◌};

use transfer::Width;

/// The number of blocks, the width of the commands, and whether the drive can write through its cache.
#[derive(Clone, Copy)]
pub struct Facts {
    pub(crate) blocks: u64,
    pub(crate) width: Width,
    pub(crate) through: bool,
    ghost small: { blocks < 2 ^ 48 },
}
