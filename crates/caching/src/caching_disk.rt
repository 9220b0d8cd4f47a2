//! The caching disk as it is held.

ghost use Rattle.std.specs.Prelude.{◌≡◌, ◌/◌, ◌^◌, ◌<◌, min, false, ◌&&◌, vec_len};
ghost use Rattle.disk.specs.Cells.{contents};
ghost use Rattle.disk.specs.Powers.{lit_of};

use disk::Power;

/// A disk over an image: 1,026 bytes a block, the cell of its medium and then the cell of its face.
/// With the cache off, and without power, each medium is its face.
#[derive(Drop)]
pub struct CachingDisk {
    pub(crate) image: Vec<u8>,
    // Not the image's length: its whole blocks, as far as 28 bits go.
    pub(crate) blocks: u64,
    pub(crate) through: bool,
    pub(crate) caching: bool,
    pub(crate) power: Power,
    ghost whole: { blocks ≡ min (vec_len image / 1026) 268435455 },
    ghost errors_fit: { power.errors < 2 ^ 32 },
    ghost orders_fit: { power.orders < 2 ^ 64 },
    ghost level: { (caching && lit_of power.supply) ≡ false → ∥ contents 1026 0 blocks image.items ≡ contents 1026 513 blocks image.items ∥₁ },
}
