//! A copy of one cell of an image over another.

ghost use Rattle.std.specs.Prelude.{◌≡◌, ◌&&◌, if◌then◌else◌};
ghost use Rattle.disk.specs.Cells.{inside};
ghost use Rattle.disk.specs.Copied.{with_copy};

use crate::cell::{CELL, lies_inside};

/// Copies the cell at `from` over the one at `to`, its mark too, and says whether it could be done.
// As with a write, a disk has shown that it can.
pub fn copy_cell(image: &mut [u8], from: usize, to: usize) -> bool
    ensures was { result ≡ (inside image.old from && inside image.old to) }
    ensures content { image.new ≡ (if result then with_copy image.old from to else image.old) }
{
    let size = image.len();
    if !lies_inside(size, from) || !lies_inside(size, to) {
        return false;
    }
    image.copy_within(from..from + CELL, to);
    true
}
