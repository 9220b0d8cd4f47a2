//! One step of a disk, which takes one step's power.
//!
//! What a step keeps stands in the contract of each, since it relates the disk before it and after; and that its block is one
//! of the disk's, since that is known of a disk and a block together.

ghost use Rattle.std.specs.Prelude.{◌≡◌, ◌<◌, true, [], length, Ok, Err};
ghost use Rattle.ata.specs.Machine.{step, ends, read_step, verify_step, write_step, flush_step, cache_step, idle_step};
ghost use Rattle.ata.specs.Machine.{bytes as holding};
ghost use Rattle.ata.specs.declared.answer.Stop.TheVariants.{Unreadable};
ghost use Rattle.disk.specs.Quiet.{still};
ghost use Rattle.disk.specs.Powers.{lit_of};
ghost use Rattle.image_disk.specs.Held.{machine_in, one_error_on, Kept, put, Untouched};

use crate::kind::ImageDisk;
use ata::Stop;

/// A block that cannot be read is counted, and ends its command.
fn unreadable<D: ImageDisk>(disk: &mut D, block: u64) -> Stop
    ensures stops { result ≡ Unreadable block }
    ensures counted { D.held disk.new ≡ one_error_on (D.held disk.old) }
{
    disk.count_error();
    Stop::Unreadable(block)
}

/// Reads a block into the 512 bytes of `into`.
pub(crate) fn read_step<D: ImageDisk>(disk: &mut D, block: u64, into: &mut [u8]) -> Result<(), Stop>
    requires { (block < (D.held disk.old).claims.blocks) × (length into.old ≡ 512) }
    ensures stepped { step still (read_step block) (machine_in (D.held disk.old)) ≡ ends result (put result into.new) (machine_in (D.held disk.new)) }
    ensures untouched { Untouched result into.old into.new }
    ensures kept { Kept (D.held disk.old) (D.held disk.new) }
{
    disk.take_power()?;
    match disk.content(block) {
        Some(content) => {
            into.copy_from_slice(content);
            Ok(())
        }
        None => Err(unreadable(disk, block)),
    }
}

/// Looks whether a block can be read.
pub(crate) fn verify_step<D: ImageDisk>(disk: &mut D, block: u64) -> Result<(), Stop>
    requires { block < (D.held disk.old).claims.blocks }
    ensures stepped { step still (verify_step block) (machine_in (D.held disk.old)) ≡ ends result [] (machine_in (D.held disk.new)) }
    ensures kept { Kept (D.held disk.old) (D.held disk.new) }
{
    disk.take_power()?;
    let Some(_) = disk.content(block) else {
        return Err(unreadable(disk, block));
    };
    Ok(())
}

/// Writes the 512 bytes of `data` to a block; the block can then be read.
pub(crate) fn write_step<D: ImageDisk>(
    disk: &mut D,
    through: bool,
    block: u64,
    data: &[u8],
) -> Result<(), Stop>
    requires within { block < (D.held disk.old).claims.blocks }
    requires sized { length «data».now ≡ 512 }
    ensures stepped { step still (write_step through block (holding «data».now)) (machine_in (D.held disk.old)) ≡ ends result [] (machine_in (D.held disk.new)) }
    ensures kept { Kept (D.held disk.old) (D.held disk.new) }
{
    disk.take_power()?;
    disk.write_block(through, block, data);
    Ok(())
}

/// Puts what waits in a cache on the medium.
pub(crate) fn flush_step<D: ImageDisk>(disk: &mut D) -> Result<(), Stop>
    ensures stepped { step still flush_step (machine_in (D.held disk.old)) ≡ ends result [] (machine_in (D.held disk.new)) }
    ensures kept { Kept (D.held disk.old) (D.held disk.new) }
{
    disk.take_power()?;
    disk.flush();
    Ok(())
}

/// Switches the cache: on where the disk claims one.
pub(crate) fn cache_step<D: ImageDisk>(disk: &mut D, on: bool) -> Result<(), Stop>
    requires { on ≡ true → (D.held disk.old).claims.cache ≡ true }
    ensures stepped { step still (cache_step on) (machine_in (D.held disk.old)) ≡ ends result [] (machine_in (D.held disk.new)) }
    ensures kept { Kept (D.held disk.old) (D.held disk.new) }
{
    disk.take_power()?;
    disk.switch(on);
    Ok(())
}

/// Takes a step's power and changes nothing else.
pub(crate) fn idle_step<D: ImageDisk>(disk: &mut D) -> Result<(), Stop>
    ensures stepped { step still idle_step (machine_in (D.held disk.old)) ≡ ends result [] (machine_in (D.held disk.new)) }
    ensures caching { result ≡ Ok tt → (D.held disk.new).store.caching ≡ (D.held disk.old).store.caching }
    ensures kept { Kept (D.held disk.old) (D.held disk.new) }
{
    disk.take_power()
}
