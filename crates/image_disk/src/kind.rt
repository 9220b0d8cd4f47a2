//! What each kind of disk over an image says of itself, and does at a step.

ghost use Rattle.std.specs.Prelude.{◌≡◌, ℕ, ◌<◌, true, length, MatchOption};
ghost use Rattle.ata.specs.Machine.{unreadable, write_step, flush_step, cache_step};
ghost use Rattle.ata.specs.Machine.{bytes as holding};
ghost use Rattle.disk.specs.Powers.{lit_of};
ghost use Rattle.image_disk.specs.Held.{Held, machine_in, block_in, one_order_on, one_error_on, power_taken, had_power, after};
ghost use Rattle.image_disk.specs.Sound.{Sound};

use ata::Stop;
use disk::{Claims, Power};

/// A disk over an image, told by what it holds. The acts on its blocks take no power by themselves:
/// a step takes its power first.
pub trait ImageDisk {
    ghost held: { Self → Held };

    ghost MOST: { ℕ };

    /// The most blocks that one command may move.
    const MOST: u32;

    fn claims(&self) -> Claims
        ensures { result ≡ (held self.now).claims };

    fn power(&self) -> Power
        ensures { result ≡ (held self.now).power };

    /// Whether writes may wait in a cache.
    fn is_caching(&self) -> bool
        ensures { result ≡ (held self.now).store.caching };

    fn count_order(&mut self)
        ensures { held self.new ≡ one_order_on (held self.old) };

    fn count_error(&mut self)
        ensures { held self.new ≡ one_error_on (held self.old) };

    /// Takes one step's power. Without it only the medium is left.
    fn take_power(&mut self) -> Result<(), Stop>
        ensures had { result ≡ had_power (held self.old) }
        ensures after { held self.new ≡ power_taken (held self.old) };

    /// The content of a block, where it can be read.
    fn content(&self, block: u64) -> Option<&[u8]>
        requires { block < (held self.now).claims.blocks }
        ensures { MatchOption result (block_in (held self.now) block ≡ unreadable) (λ content. (block_in (held self.now) block ≡ holding content.now) × (length content.now ≡ 512)) };

    /// Puts the 512 bytes of `data` into a block of a lit disk.
    fn write_block(&mut self, through: bool, block: u64, data: &[u8])
        requires within { block < (held self.old).claims.blocks }
        requires sized { length «data».now ≡ 512 }
        requires lit { lit_of (held self.old).power.supply ≡ true }
        ensures { held self.new ≡ after (write_step through block (holding «data».now)) (held self.old) };

    /// Puts what waits in a cache on the medium.
    fn flush(&mut self)
        ensures { held self.new ≡ after flush_step (held self.old) };

    /// Switches the cache: on where the disk claims one.
    fn switch(&mut self, on: bool)
        requires { on ≡ true → (held self.old).claims.cache ≡ true }
        ensures { held self.new ≡ after (cache_step on) (held self.old) };

    ghost sound: { (x : Self) → Sound MOST (held x) };

    final fn has_power(&self) -> bool
        ensures { result ≡ lit_of (held self.now).power.supply }
    {
        self.power().is_lit()
    }

    /// The blocks of the disk.
    final fn blocks(&self) -> u64
        ensures { result ≡ length (held self.now).store.face }
    {
        self.claims().blocks
    }

    /// The unreadable blocks that were met, up to 2^32 - 1.
    final fn errors(&self) -> u32
        ensures { result ≡ (machine_in (held self.now)).errors }
    {
        self.power().errors
    }

    /// The commands that were taken, up to 2^64 - 1.
    final fn orders(&self) -> u64
        ensures { result ≡ (held self.now).power.orders }
    {
        self.power().orders
    }
}
