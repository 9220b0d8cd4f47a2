//! The two sides of an image: the cells of the media, and those of the faces.

ghost use Rattle.std.specs.Prelude.{◌≡◌, ℕ, ◌+◌, ◌*◌, ◌<◌, ◌≤◌, true, length, if◌then◌else◌, vec_len, slice_set};
ghost use Rattle.ata.specs.Machine.{bytes as holding};
ghost use Rattle.disk.specs.Cells.{contents};
ghost use Rattle.caching.specs.Sides.{Sides, faces, media};

use disk::{copy_cell, write_cell};

/// The bytes of a block, both its cells.
pub(crate) const PAIR: usize = 1026;

/// Where the cell of the medium stands in a block.
pub(crate) const MEDIUM: usize = 0;

/// Where the cell of the face stands in a block.
pub(crate) const FACE: usize = 513;

/// Copies each block's cell on one side over its cell on the other.
pub(crate) fn copy_cells(image: &mut [u8], blocks: u64, from: usize, to: usize)
    requires { (1026 * blocks ≤ length image.old) × (Sides from to) }
    ensures copied { contents 1026 to blocks image.new ≡ contents 1026 from blocks image.old }
    ensures kept { contents 1026 from blocks image.new ≡ contents 1026 from blocks image.old }
{
    // After a loop over `chunks_exact_mut` nothing would be known of the image.
    for i in 0..blocks {
        let at = PAIR * i as usize;
        copy_cell(image, at + from, at + to);
    }
}

/// Writes the 512 bytes of `data` to the face of a block, and to its medium too where `deep`.
pub(crate) fn write_block(image: &mut [u8], block: u64, deep: bool, data: &[u8])
    requires { (1026 * block + 1026 ≤ length image.old) × (length «data».now ≡ 512) }
    ensures face { (n : ℕ) → block < n → faces n image.new ≡ slice_set (faces n image.old) block (holding «data».now) }
    ensures medium { (n : ℕ) → block < n → media n image.new ≡ (if deep then slice_set (media n image.old) block (holding «data».now) else media n image.old) }
{
    let at = PAIR * block as usize;
    write_cell(image, at + FACE, data);
    if deep {
        write_cell(image, at + MEDIUM, data);
    }
}

/// The image of a new disk: with its cache off, each medium becomes its face.
pub(crate) fn settled(mut image: Vec<u8>, blocks: u64, cache: bool) -> Vec<u8>
    requires { 1026 * blocks ≤ vec_len image }
    ensures face { faces blocks result.items ≡ faces blocks image.items }
    ensures medium { media blocks result.items ≡ (if cache then media blocks image.items else faces blocks image.items) }
    ensures long { vec_len result ≡ vec_len image }
    ensures same { cache ≡ true → result.items ≡ image.items }
{
    if !cache {
        copy_cells(image.as_mut_slice(), blocks, FACE, MEDIUM);
    }
    image
}
