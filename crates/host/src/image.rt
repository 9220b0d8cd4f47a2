//! The images of new disks, in cells of a mark and 512 bytes of content.

ghost use Rattle.std.specs.Prelude.{◌≡◌, ℕ, ◌*◌, ◌<◌, ◌≤◌, IfOk, vec_len, slice_index};
ghost use Rattle.host.specs.Images.{marked, image_of, plain_image, caching_image, mark_of};

use std::alloc::{AllocError, Global};

/// The bytes of a cell.
const CELL: usize = 513;

// Marks the cell at `at` of each listed block, of `size` bytes, as unreadable; one past the end has no mark.
fn mark(image: &mut [u8], size: usize, at: usize, bad: &[u32])
    requires { (size ≤ 1026) × (at ≤ 1026) }
    ensures { image.new ≡ marked size at image.old bad.now }
{
    for block in bad {
        let place = size * *block as usize + at;
        if place < image.len() {
            image[place] = 1;
        }
    }
}

// An image of zeros with so many cells a block, each marked as unreadable for the blocks of `bad`.
fn image_of(heap: Global, cells: usize, blocks: u32, bad: &[u32]) -> Result<Vec<u8>, AllocError>
    requires { cells ≤ 2 }
    ensures bytes { IfOk result (λ v. v.items ≡ image_of cells blocks bad.now) }
    ensures whole { IfOk result (λ v. vec_len v ≡ 513 * cells * blocks) }
{
    let block = CELL * cells;
    let mut image = vec![in heap; 0u8; block * blocks as usize]?;
    for cell in 0..cells {
        mark(image.as_mut_slice(), block, CELL * cell, bad);
    }
    Ok(image)
}

/// An image for a plain disk: one cell a block, marked as unreadable for the blocks of `bad`.
#[tactic(auto, using(crate::proofs::Marks::marks_of_plain))]
pub fn plain_image(heap: Global, blocks: u32, bad: &[u32]) -> Result<Vec<u8>, AllocError>
    ensures bytes { IfOk result (λ v. v.items ≡ plain_image blocks bad.now) }
    ensures whole { IfOk result (λ v. vec_len v ≡ 513 * blocks) }
    ensures marks { IfOk result (λ v. (b : ℕ) → b < blocks → slice_index v.items (513 * b) ≡ mark_of b bad.now) }
{
    image_of(heap, 1, blocks, bad)
}

/// An image for a caching disk: two cells a block, medium and then face, both marked for the blocks of `bad`.
pub fn caching_image(heap: Global, blocks: u32, bad: &[u32]) -> Result<Vec<u8>, AllocError>
    ensures { IfOk result (λ v. v.items ≡ caching_image blocks bad.now) }
{
    image_of(heap, 2, blocks, bad)
}
