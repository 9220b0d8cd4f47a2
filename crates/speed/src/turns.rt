//! The turns that are timed.

use anyhow::anyhow;
use sense::Refusal;
use std::time::{Duration, Instant};
use transfer::Fault;
use unit::Reply;

/// The bytes of 256 blocks.
pub const BYTES: usize = 131_072;

/// How often each is done.
pub const TURNS: u32 = 4_000;

// Moves a byte of the target into the source, at another place each turn.
fn turn_over(turn: u32, from: &mut [u8], to: &[u8]) {
    let at = turn as usize * 31;
    if at < from.len() && at < to.len() {
        from[at] = to[at].wrapping_add(1);
    }
}

/// Times what is done with source and target in a turn.
pub fn timed<F: FnMut(&mut [u8], &mut [u8]) -> anyhow::Result<()>>(
    rt: &HostRuntime,
    from: &mut [u8],
    to: &mut [u8],
    mut act: F,
) -> anyhow::Result<Duration>
    requires { F.IsAlwaysCallable act }
{
    let start = Instant::now(rt)?;
    for turn in 0..TURNS {
        turn_over(turn, from, to);
        act(from, to)?;
    }
    Ok(start.elapsed(rt)?)
}

/// A copy, between buffers of one length.
pub fn copy(from: &[u8], to: &mut [u8]) -> anyhow::Result<()> {
    if from.len() != to.len() {
        return Err(anyhow!("buffers of two lengths"));
    }
    to.copy_from_slice(from);
    Ok(())
}

/// An answer that has to be GOOD.
pub fn good(answer: Result<Reply<Fault>, Refusal>) -> anyhow::Result<()> {
    match answer {
        Ok(Reply::Good(_)) => Ok(()),
        _ => Err(anyhow!("the unit did not answer GOOD")),
    }
}
