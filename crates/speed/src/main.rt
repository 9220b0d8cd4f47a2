//! How long READ(10) and WRITE(10) of 256 blocks take through the unit on a plain disk, beside a copy of as many bytes.
//!
//! Each is done 4,000 times between two readings of the monotonic clock, on buffers that were touched before.
//! A turn first moves a byte of its target into its source, so that no turn does what the one before it did.
//! What is measured goes to the standard error; the standard output stays empty.

#![tactic(auto)]

mod turns;

use ata::Drive;
use host::{plain_image, read10_cdb, test_unit_ready_cdb, write10_cdb};
use plain::PlainDisk;
use std::time::Duration;
use turns::{BYTES, TURNS, copy, good, timed};
use unit::Unit;

fn through_unit<D: Drive>(
    rt: &HostRuntime,
    unit: &mut Unit<D>,
    from: &mut [u8],
    to: &mut [u8],
) -> anyhow::Result<(Duration, Duration)> {
    // The first command reports the attention of a new unit.
    let _ = unit.command(&test_unit_ready_cdb(), &[], &mut []);
    let write = write10_cdb(0, 256, false);
    let written = timed(
        rt,
        from,
        to,
        |from, _| good(unit.command(&write, from, &mut [])),
    )?;
    let read = read10_cdb(0, 256, false);
    let read = timed(rt, from, to, |_, to| good(unit.command(&read, &[], to)))?;
    Ok((written, read))
}

fn show(rt: &HostRuntime, name: &str, took: Duration, copied: Duration) -> anyhow::Result<()> {
    let micros = took.as_secs_f64() * 1e6 / TURNS as f64;
    let ratio = took.as_secs_f64() / copied.as_secs_f64();
    eprintln!(rt; "{name}: {micros:.2} microseconds, {ratio:.2} times a copy")?;
    Ok(())
}

fn measure(rt: &HostRuntime) -> anyhow::Result<()> {
    let heap = rt.alloc();
    let mut from = vec![in heap; 0x5Au8; BYTES]?;
    let mut to = vec![in heap; 0xA5u8; BYTES]?;
    let copied = timed(
        rt,
        from.as_mut_slice(),
        to.as_mut_slice(),
        |from, to| copy(from, to),
    )?;
    let mut unit = Unit::attach(PlainDisk::new(plain_image(heap, 256, &[])?));
    let timed = through_unit(rt, &mut unit, from.as_mut_slice(), to.as_mut_slice());
    let _ = unit.detach();
    let (written, read) = timed?;
    show(rt, "copy", copied, copied)?;
    show(rt, "WRITE", written, copied)?;
    show(rt, "READ", read, copied)
}

fn main(rt: HostRuntime) -> anyhow::Result<()> {
    measure(&rt)
}
