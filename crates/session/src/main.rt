//! Runs the session on the standard input, and prints each act with what happened.

#![tactic(auto)]

mod bay;
mod counts;
mod rows;
mod run;
mod serve;
mod shown;

use run::Session;
use script::read_script;
use std::io;

// Carries out the script on the standard input, and prints what it came to.
fn play(rt: &HostRuntime) -> anyhow::Result<()> {
    let text = io::read_to_string(rt.alloc(), rt.stdin())?;
    let script = read_script(rt.alloc(), text.as_str())?;
    let mut session = Session::new(rt);
    let ended = session.run(script.lines.as_slice());
    session.sum_up()?;
    ended?;
    match script.bad {
        Some(stop) => Err(stop.into()),
        None => Ok(()),
    }
}

fn main(rt: HostRuntime) -> anyhow::Result<()> {
    play(&rt)
}
