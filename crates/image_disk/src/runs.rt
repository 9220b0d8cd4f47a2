//! The steps of a whole command, up to the first that is not done.

ghost use Rattle.std.specs.Prelude.{◌≡◌, ◌+◌, ◌*◌, ◌≤◌, true, [], length};
ghost use Rattle.ata.specs.Machine.{steps, ends};
ghost use Rattle.ata.specs.Commands.{reads, verifies, writes};
ghost use Rattle.ata.specs.Commands.{blocks as blocksOf};
ghost use Rattle.disk.specs.Quiet.{quiet, Filled};
ghost use Rattle.disk.specs.Powers.{lit_of};
ghost use Rattle.image_disk.specs.Held.{machine_in, Kept};

use crate::kind::ImageDisk;
use crate::span::Span;
use crate::steps::{read_step, verify_step, write_step};
use ata::Stop;
use disk::BLOCK;

/// Reads blocks into the front of `into`.
// After a loop over `chunks_exact_mut` nothing is known of what the buffer holds, so each block's part is taken by its place.
pub(crate) fn run_reads<D: ImageDisk>(disk: &mut D, span: Span, into: &mut [u8]) -> Result<(), Stop>
    requires { (span.block + span.count ≤ (D.held disk.old).claims.blocks) × (512 * span.count ≤ length into.old) }
    ensures ran { Filled (steps quiet (reads span.block span.count) (machine_in (D.held disk.old))) result (machine_in (D.held disk.new)) into.old into.new }
    ensures kept { Kept (D.held disk.old) (D.held disk.new) }
{
    for i in 0..span.count {
        let at = BLOCK * i as usize;
        read_step(disk, span.block + i as u64, &mut into[at..at + BLOCK])?;
    }
    Ok(())
}

/// Looks whether blocks can be read.
pub(crate) fn run_verifies<D: ImageDisk>(disk: &mut D, span: Span) -> Result<(), Stop>
    requires { span.block + span.count ≤ (D.held disk.old).claims.blocks }
    ensures ran { steps quiet (verifies span.block span.count) (machine_in (D.held disk.old)) ≡ ends result [] (machine_in (D.held disk.new)) }
    ensures kept { Kept (D.held disk.old) (D.held disk.new) }
{
    for i in 0..span.count {
        verify_step(disk, span.block + i as u64)?;
    }
    Ok(())
}

/// Writes blocks from the front of `from`.
// By its place, as in a read: over `chunks_exact` the proof would have to say which block each turn of the iterator gives.
pub(crate) fn run_writes<D: ImageDisk>(
    disk: &mut D,
    through: bool,
    span: Span,
    from: &[u8],
) -> Result<(), Stop>
    requires within { span.block + span.count ≤ (D.held disk.old).claims.blocks }
    requires sized { 512 * span.count ≤ length from.now }
    ensures ran { steps quiet (writes through span.block (blocksOf span.count from.now)) (machine_in (D.held disk.old)) ≡ ends result [] (machine_in (D.held disk.new)) }
    ensures kept { Kept (D.held disk.old) (D.held disk.new) }
{
    for i in 0..span.count {
        let at = BLOCK * i as usize;
        write_step(disk, through, span.block + i as u64, &from[at..at + BLOCK])?;
    }
    Ok(())
}
