//! The plain disk as it is held.

ghost use Rattle.std.specs.Prelude.{◌≡◌, ◌/◌, ◌^◌, ◌<◌, min, vec_len};

use disk::Power;

/// A disk over an image: 513 bytes a block, a mark and 512 bytes of content. Bytes past the last block are no part of the disk.
#[derive(Drop)]
pub struct PlainDisk {
    pub(crate) image: Vec<u8>,
    // Not the image's length: its whole blocks, as far as 28 bits go.
    pub(crate) blocks: u64,
    pub(crate) power: Power,
    ghost whole: { blocks ≡ min (vec_len image / 513) 268435455 },
    ghost errors_fit: { power.errors < 2 ^ 32 },
    ghost orders_fit: { power.orders < 2 ^ 64 },
}
