//! What the caching disk does at a step: writes may wait on their faces.

ghost use Rattle.std.specs.Prelude.{◌≡◌, not, ◌||◌};
ghost use Rattle.caching.specs.Meaning.{held_of};
ghost use Rattle.caching.specs.Sound.{sound_of};

use crate::caching_disk::CachingDisk;
use crate::sides::{FACE, MEDIUM, PAIR, copy_cells, write_block};
use ata::Stop;
use disk::{Claims, Power, content_at};
use image_disk::ImageDisk;

impl CachingDisk {
    /// Whether a write goes to the medium at once.
    fn writes_deep(&self, through: bool) -> bool
        ensures { result ≡ (through || not self.now.caching) }
    {
        through || !self.caching
    }
}

impl ImageDisk for CachingDisk {
    ghost held = { held_of };

    ghost MOST = { 65536 };

    ghost sound = { sound_of };

    const MOST: u32 = 65536;

    /// The caching disk claims 48-bit commands, a cache and, as chosen, the write through it.
    fn claims(&self) -> Claims {
        Claims {
            blocks: self.blocks,
            wide: true,
            cache: true,
            through: self.through,
        }
    }

    fn power(&self) -> Power {
        self.power
    }

    fn is_caching(&self) -> bool {
        self.caching
    }

    fn count_order(&mut self) {
        self.power.count_order();
    }

    fn count_error(&mut self) {
        self.power.count_error();
    }

    /// Without power each face becomes its medium.
    fn take_power(&mut self) -> Result<(), Stop> {
        if let Err(stop) = self.power.tick() {
            copy_cells(self.image.as_mut_slice(), self.blocks, MEDIUM, FACE);
            return Err(stop);
        }
        Ok(())
    }

    fn content(&self, block: u64) -> Option<&[u8]> {
        content_at(self.image.as_slice(), PAIR * block as usize + FACE)
    }

    fn write_block(&mut self, through: bool, block: u64, data: &[u8]) {
        let deep = self.writes_deep(through);
        write_block(self.image.as_mut_slice(), block, deep, data);
    }

    /// Puts each face on its medium.
    fn flush(&mut self) {
        copy_cells(self.image.as_mut_slice(), self.blocks, FACE, MEDIUM);
    }

    /// To go off puts each face on its medium.
    fn switch(&mut self, on: bool) {
        if !on {
            self.flush();
        }
        self.caching = on;
    }
}
