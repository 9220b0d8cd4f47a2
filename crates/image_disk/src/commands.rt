//! What a disk does for each order, while it has power.

ghost use Rattle.std.specs.Prelude.{◌≡◌, ℕ, true, List, []};
ghost use Rattle.ata.specs.Words.{showing};
ghost use Rattle.ata.specs.Commands.{Load, sends, fetches, fetches_words, room, gives, ordered, no_answer, obeys};
ghost use Rattle.ata.specs.Commands.{identify as Identifying, read as Reading, verify as Verifying, write as Writing, flush as Flushing, switch as Switching, idle as Idling};
ghost use Rattle.disk.specs.Claimed.{words_for};
ghost use Rattle.disk.specs.Orders.{meant, Bare, switches};
ghost use Rattle.disk.specs.Quiet.{quiet};
ghost use Rattle.disk.specs.Powers.{lit_of};
ghost use Rattle.image_disk.specs.Held.{state_in};

use crate::kind::ImageDisk;
use crate::order::admit;
use crate::runs::{run_reads, run_verifies, run_writes};
use crate::span::Span;
use crate::steps::{cache_step, flush_step, idle_step};
use ata::{Answer, Stop};
use disk::{ABORTED, BLOCK, Order, answer_for, identify_words};

/// Counts a command that a dark disk does not answer.
pub(crate) fn ignore<D: ImageDisk>(disk: &mut D) -> Answer
    ensures { (b : List ℕ) → gives result (state_in D.MOST (D.held disk.new)) b ≡ gives no_answer (ordered (state_in D.MOST (D.held disk.old))) b }
{
    disk.count_order();
    answer_for(Err(Stop::Cut))
}

// A read, a write and a look at blocks differ in the run that follows once the command is admitted.
/// Reads blocks into the front of `into`.
pub(crate) fn read<D: ImageDisk>(disk: &mut D, span: Span, into: &mut [u8]) -> Answer
    ensures { gives result (state_in D.MOST (D.held disk.new)) into.new ≡ obeys quiet (state_in D.MOST (D.held disk.old)) span.block (fetches into.old) (Reading span.count) }
{
    let short = into.len() < BLOCK * span.count as usize;
    match admit(disk, span, short) {
        Err(answer) => answer,
        Ok(()) => answer_for(run_reads(disk, span, into)),
    }
}

/// Writes blocks from the front of `from`.
pub(crate) fn write<D: ImageDisk>(disk: &mut D, through: bool, span: Span, from: &[u8]) -> Answer
    ensures { gives result (state_in D.MOST (D.held disk.new)) [] ≡ obeys quiet (state_in D.MOST (D.held disk.old)) span.block (sends from.now) (Writing through span.count) }
{
    let short = from.len() < BLOCK * span.count as usize;
    match admit(disk, span, short) {
        Err(answer) => answer,
        Ok(()) => answer_for(run_writes(disk, through, span, from)),
    }
}

/// Looks whether blocks can be read.
fn verify<D: ImageDisk>(disk: &mut D, span: Span) -> Answer
    ensures { (l : Load) → gives result (state_in D.MOST (D.held disk.new)) (room l) ≡ obeys quiet (state_in D.MOST (D.held disk.old)) span.block l (Verifying span.count) }
{
    match admit(disk, span, false) {
        Err(answer) => answer,
        Ok(()) => answer_for(run_verifies(disk, span)),
    }
}

// A flush, a switch and an idle command differ in their step alone. One function over a step that is passed to it would have
// to say of the step what these three contracts say.
/// Puts what waits in a cache on the medium.
fn flush<D: ImageDisk>(disk: &mut D) -> Answer
    ensures { (b : ℕ) (l : Load) → gives result (state_in D.MOST (D.held disk.new)) (room l) ≡ obeys quiet (state_in D.MOST (D.held disk.old)) b l Flushing }
{
    disk.count_order();
    answer_for(flush_step(disk))
}

/// Switches the cache: on where the disk claims one.
fn switch<D: ImageDisk>(disk: &mut D, on: bool) -> Answer
    requires { on ≡ true → (D.held disk.old).claims.cache ≡ true }
    ensures { (b : ℕ) (l : Load) → gives result (state_in D.MOST (D.held disk.new)) (room l) ≡ obeys quiet (state_in D.MOST (D.held disk.old)) b l (Switching on) }
{
    disk.count_order();
    answer_for(cache_step(disk, on))
}

/// A command that only takes time.
fn idle<D: ImageDisk>(disk: &mut D) -> Answer
    ensures { (b : ℕ) (l : Load) → gives result (state_in D.MOST (D.held disk.new)) (room l) ≡ obeys quiet (state_in D.MOST (D.held disk.old)) b l Idling }
{
    disk.count_order();
    answer_for(idle_step(disk))
}

/// The words of the disk as it is: bit 5 of word 85 shows whether the cache is on.
fn words<D: ImageDisk>(disk: &D) -> [u16; 256]
    ensures { result ≡ showing (D.held disk.now).store.caching (words_for (D.held disk.now).claims) }
{
    let mut words = identify_words(disk.claims());
    words[85] = if disk.is_caching() { 1 << 5 } else { 0 };
    words
}

/// Gives the words of the disk.
pub(crate) fn identify<D: ImageDisk>(disk: &mut D, into: &mut [u16]) -> Answer
    ensures { (b : ℕ) → gives result (state_in D.MOST (D.held disk.new)) into.new ≡ obeys quiet (state_in D.MOST (D.held disk.old)) b (fetches_words into.old) Identifying }
{
    if into.len() < 256 {
        return ABORTED;
    }
    disk.count_order();
    let end = idle_step(disk);
    if end.is_ok() {
        into[0..256].copy_from_slice(&words(disk));
    }
    answer_for(end)
}

/// Carries out an order that came with no data of its kind.
pub(crate) fn without_data<D: ImageDisk>(disk: &mut D, block: u64, order: Order) -> Answer
    requires { switches (meant order) ≡ true → (D.held disk.old).claims.cache ≡ true }
    ensures { (l : Load) → Bare l (meant order) → gives result (state_in D.MOST (D.held disk.new)) (room l) ≡ obeys quiet (state_in D.MOST (D.held disk.old)) block l (meant order) }
{
    match order {
        Order::Verify(count) => verify(
            disk,
            Span {
                block,
                count: count.get(),
            },
        ),
        Order::Flush => flush(disk),
        Order::Switch(on) => switch(disk, on),
        Order::Idle => idle(disk),
        _ => ABORTED,
    }
}
