//! A disk as a drive: its commands, by what goes with each.

ghost use Rattle.std.specs.Prelude.{◌≡◌, []};
ghost use Rattle.std.specs.Int.NonZero.{non_zero_u32_get};
ghost use Rattle.ata.specs.Commands.{nothing, sends, fetches, fetches_words};
ghost use Rattle.ata.specs.Exchange.{exchange, Agrees};
ghost use Rattle.image_disk.specs.Held.{state_in};

use crate::commands::{identify, ignore, read, without_data, write};
use crate::kind::ImageDisk;
use crate::order::order;
use crate::span::Span;
use ata::{Answer, TaskFile};
use disk::Order;
use std::num::NonZeroU32;

// The blocks that a task file names, with as many as its count stands for.
fn span(task: TaskFile, count: NonZeroU32) -> Span
    ensures { result ≡ record { block = task.block; count = non_zero_u32_get count } }
{
    Span {
        block: task.block,
        count: count.get(),
    }
}

// The four calls differ in the order that is theirs alone; each looks at power first.
/// A command with no data.
pub fn no_data<D: ImageDisk>(disk: &mut D, task: TaskFile) -> Answer
    ensures { Agrees (state_in D.MOST (D.held disk.old)) (exchange task nothing [] result) (state_in D.MOST (D.held disk.new)) }
{
    if !disk.has_power() {
        return ignore(disk);
    }
    let order = order(disk, task);
    without_data(disk, task.block, order)
}

/// A command with data to the disk.
pub fn data_out<D: ImageDisk>(disk: &mut D, task: TaskFile, from: &[u8]) -> Answer
    ensures { Agrees (state_in D.MOST (D.held disk.old)) (exchange task (sends from.now) [] result) (state_in D.MOST (D.held disk.new)) }
{
    if !disk.has_power() {
        return ignore(disk);
    }
    match order(disk, task) {
        Order::Write { through, count } => write(disk, through, span(task, count), from),
        order => without_data(disk, task.block, order),
    }
}

/// A command with data from the disk.
pub fn data_in<D: ImageDisk>(disk: &mut D, task: TaskFile, into: &mut [u8]) -> Answer
    ensures { Agrees (state_in D.MOST (D.held disk.old)) (exchange task (fetches into.old) into.new result) (state_in D.MOST (D.held disk.new)) }
{
    if !disk.has_power() {
        return ignore(disk);
    }
    match order(disk, task) {
        Order::Read(count) => read(disk, span(task, count), into),
        order => without_data(disk, task.block, order),
    }
}

/// A command with words from the disk.
pub fn words_in<D: ImageDisk>(disk: &mut D, task: TaskFile, into: &mut [u16]) -> Answer
    ensures { Agrees (state_in D.MOST (D.held disk.old)) (exchange task (fetches_words into.old) into.new result) (state_in D.MOST (D.held disk.new)) }
{
    if !disk.has_power() {
        return ignore(disk);
    }
    match order(disk, task) {
        Order::Identify => identify(disk, into),
        order => without_data(disk, task.block, order),
    }
}
