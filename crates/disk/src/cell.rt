//! One cell of an image: a mark, 0 where the block can be read, and then 512 bytes of content.

ghost use Rattle.std.specs.Prelude.{◌≡◌, ◌+◌, ◌&&◌, length, if◌then◌else◌, ◌==◌, nat_le, MatchOption};
ghost use Rattle.ata.specs.Machine.{unreadable};
ghost use Rattle.ata.specs.Machine.{bytes as holding};
ghost use Rattle.disk.specs.Cells.{inside, cell_at, with_cell};

/// The bytes of a block's content.
pub const BLOCK: usize = 512;

/// The bytes of a cell.
pub const CELL: usize = 513;

/// The most blocks that 28 bits can count.
pub const LARGEST: u64 = 268_435_455;

/// Whether the cell at `at` lies wholly inside an image of `size` bytes.
pub(crate) fn lies_inside(size: usize, at: usize) -> bool
    ensures { result ≡ nat_le (at + 513) size }
{
    size >= CELL && at <= size - CELL
}

/// The content of the cell at `at`, where it can be read: it lies inside the image and its mark is 0.
pub fn content_at(image: &[u8], at: usize) -> Option<&[u8]>
    ensures { MatchOption result (cell_at image.now at ≡ unreadable) (λ content. (cell_at image.now at ≡ holding content.now) × (length content.now ≡ 512)) }
{
    if !lies_inside(image.len(), at) {
        return None;
    }
    if image[at] != 0 {
        return None;
    }
    Some(&image[at + 1..at + CELL])
}

/// Makes the cell at `at` readable, with `data` of 512 bytes, and says whether it could be done.
// A disk has shown that it can, and would have to unwrap a Result.
pub fn write_cell(image: &mut [u8], at: usize, data: &[u8]) -> bool
    ensures was { result ≡ (inside image.old at && length «data».now == 512) }
    ensures content { image.new ≡ (if result then with_cell image.old at «data».now else image.old) }
{
    if !lies_inside(image.len(), at) || data.len() != BLOCK {
        return false;
    }
    image[at] = 0;
    image[at + 1..at + CELL].copy_from_slice(data);
    true
}
