//! What a disk takes a task file for, and whether a command that moves blocks may begin.

ghost use Rattle.std.specs.Prelude.{◌≡◌, true};
ghost use Rattle.ata.specs.Commands.{taken};
ghost use Rattle.disk.specs.Claimed.{words_for};
ghost use Rattle.disk.specs.Orders.{meant, switches};
ghost use Rattle.image_disk.specs.Held.{Admits};

use crate::kind::ImageDisk;
use crate::span::Span;
use ata::{Answer, TaskFile};
use disk::{ABORTED, Order, order_of};

/// What the disk takes a task file for.
pub(crate) fn order<D: ImageDisk>(disk: &D, task: TaskFile) -> Order
    ensures is { meant result ≡ taken (words_for (D.held disk.now).claims) task.command task.feature task.count }
    ensures cached { switches (meant result) ≡ true → (D.held disk.now).claims.cache ≡ true }
{
    order_of(disk.claims(), task)
}

/// Takes a command that moves blocks, unless it has its answer already.
pub(crate) fn admit<D: ImageDisk>(disk: &mut D, span: Span, short: bool) -> Result<(), Answer>
    ensures { Admits D.MOST span.block span.count short (D.held disk.old) (D.held disk.new) result }
{
    if span.count > D::MOST || short {
        return Err(ABORTED);
    }
    disk.count_order();
    let size = disk.claims().blocks;
    if span.block > size || u64::from(span.count) > size - span.block {
        return Err(Answer {
            status: 0x41,
            error: 0x10,
            block: size,
        });
    }
    Ok(())
}
