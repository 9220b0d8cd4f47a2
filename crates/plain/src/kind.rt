//! What the plain disk does at a step: each write is on the medium at once.

ghost use Rattle.plain.specs.Meaning.{held_of};
ghost use Rattle.plain.specs.Sound.{sound_of};

use crate::plain_disk::PlainDisk;
use ata::Stop;
use disk::{CELL, Claims, Power, content_at, write_cell};
use image_disk::ImageDisk;

impl ImageDisk for PlainDisk {
    ghost held = { held_of };

    ghost MOST = { 256 };

    ghost sound = { sound_of };

    const MOST: u32 = 256;

    /// The plain disk claims its blocks and nothing else.
    fn claims(&self) -> Claims {
        Claims {
            blocks: self.blocks,
            wide: false,
            cache: false,
            through: false,
        }
    }

    fn power(&self) -> Power {
        self.power
    }

    fn is_caching(&self) -> bool {
        false
    }

    fn count_order(&mut self) {
        self.power.count_order();
    }

    fn count_error(&mut self) {
        self.power.count_error();
    }

    fn take_power(&mut self) -> Result<(), Stop> {
        self.power.tick()
    }

    fn content(&self, block: u64) -> Option<&[u8]> {
        content_at(self.image.as_slice(), CELL * block as usize)
    }

    fn write_block(&mut self, _through: bool, block: u64, data: &[u8]) {
        write_cell(self.image.as_mut_slice(), CELL * block as usize, data);
    }

    /// Nothing waits.
    fn flush(&mut self) {}

    /// There is no cache, which is to say that it is always off.
    fn switch(&mut self, _on: bool) {}
}
