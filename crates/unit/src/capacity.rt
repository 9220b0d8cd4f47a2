//! READ CAPACITY: the last block and the length of a block.

ghost use Rattle.std.specs.Prelude.{◌≡◌, ◌++◌};
ghost use Rattle.unit.specs.Capacity.{last_block, capacity_data};

use crate::known::Facts;

/// The last block, or FFFFFFFFh where 32 bits do not reach it, and 512: four bytes each.
pub(crate) fn capacity_data(facts: &Facts) -> [u8; 8]
    ensures { result ≡ capacity_data facts.now.blocks }
{
    let last = u32::try_from(facts.blocks.saturating_sub(1)).unwrap_or(u32::MAX);
    let [a, b, c, d] = last.to_be_bytes();
    let [e, f, g, h] = 512u32.to_be_bytes();
    [a, b, c, d, e, f, g, h]
}
