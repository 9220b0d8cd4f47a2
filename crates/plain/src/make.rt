//! New disks, the image of one that is taken apart, and what can be asked of any.

ghost use Rattle.std.specs.Prelude.{◌≡◌};
ghost use Rattle.ata.specs.Commands.{size};
ghost use Rattle.plain.specs.Meaning.{fresh, image_of, state_of};

use crate::plain_disk::PlainDisk;
use disk::{CELL, LARGEST, Power};

impl PlainDisk {
    /// A lit disk over the whole blocks of an image.
    pub fn new(image: Vec<u8>) -> PlainDisk
        ensures state { state_of result ≡ fresh image.items }
        ensures holds { image_of result ≡ image.items }
    {
        let blocks = ((image.len() / CELL) as u64).min(LARGEST);
        PlainDisk {
            image,
            blocks,
            power: Power::new(),
        }
    }

    /// Gives the image back. A new disk over it holds what this one held.
    pub fn into_image(self) -> Vec<u8>
        ensures is { result.items ≡ image_of self }
        ensures again { (fresh (result.items)).machine.store ≡ (state_of self).machine.store }
    {
        let PlainDisk {
            image,
            blocks: _,
            power: _,
        } = self;
        image
    }

    /// The blocks of the disk.
    pub fn blocks(&self) -> u64
        ensures { result ≡ size (state_of self.now) }
    {
        self.blocks
    }

    /// The unreadable blocks that were met, up to 2^32 - 1.
    pub fn errors(&self) -> u32
        ensures { result ≡ (state_of self.now).machine.errors }
    {
        self.power.errors
    }

    /// The commands that were taken, up to 2^64 - 1.
    pub fn orders(&self) -> u64
        ensures { result ≡ (state_of self.now).orders }
    {
        self.power.orders
    }
}
