//! New disks, the image of one that is taken apart, and what can be asked of any.

ghost use Rattle.std.specs.Prelude.{◌≡◌, Bool, true};
ghost use Rattle.ata.specs.Commands.{size};
ghost use Rattle.caching.specs.Meaning.{fresh, image_of, state_of, cached_store};

use crate::caching_disk::CachingDisk;
use crate::sides::{PAIR, settled};
use disk::{LARGEST, Power};

impl CachingDisk {
    /// A lit disk over the whole blocks of an image, with its cache on or off, that takes the write through it or not.
    pub fn new(image: Vec<u8>, cache: bool, through: bool) -> CachingDisk
        ensures state { state_of result ≡ fresh image.items cache through }
        ensures holds { cache ≡ true → image_of result ≡ image.items }
    {
        let blocks = ((image.len() / PAIR) as u64).min(LARGEST);
        CachingDisk {
            image: settled(image, blocks, cache),
            blocks,
            through,
            caching: cache,
            power: Power::new(),
        }
    }

    /// Gives the image back. A new disk over it with its cache on holds what this one held.
    pub fn into_image(self) -> Vec<u8>
        ensures is { result.items ≡ image_of self }
        ensures again { (t : Bool) → (fresh result.items true t).machine.store ≡ cached_store (state_of self).machine.store }
    {
        let CachingDisk {
            image,
            blocks: _,
            through: _,
            caching: _,
            power: _,
        } = self;
        image
    }

    /// The blocks of the disk.
    pub fn blocks(&self) -> u64
        ensures { result ≡ size (state_of self.now) }
    {
        self.blocks
    }

    /// The unreadable blocks that were met, up to 2^32 - 1.
    pub fn errors(&self) -> u32
        ensures { result ≡ (state_of self.now).machine.errors }
    {
        self.power.errors
    }

    /// The commands that were taken, up to 2^64 - 1.
    pub fn orders(&self) -> u64
        ensures { result ≡ (state_of self.now).orders }
    {
        self.power.orders
    }
}
