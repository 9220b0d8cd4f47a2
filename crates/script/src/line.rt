//! A line as an act.

ghost use Rattle.std.specs.Prelude.{◌≡◌};
ghost use Rattle.script.specs.Lines.{written_of};

use crate::words::Words;
use crate::{calls, disks};
use acts::{Act, Wrong};
use std::alloc::Global;

/// The act as it is written: the line with no comment, and no blanks around it.
pub fn written(line: &str) -> &str
    ensures { result.now ≡ written_of line.now }
{
    match line.split_once('#') {
        Some((act, _)) => act.trim(),
        None => line.trim(),
    }
}

// An act that takes no words.
fn alone(words: Words<'_>, act: Act) -> Result<Act, Wrong> {
    words.none_left()?;
    Ok(act)
}

/// The act of a line, or none where the line is blank.
pub fn parse(heap: Global, line: &str) -> Result<Option<Act>, Wrong> {
    let mut rest = written(line).split_whitespace();
    let Some(name) = rest.next() else {
        return Ok(None);
    };
    let words = Words { heap, rest };
    let act = match name {
        "disk" => Act::Disk(disks::disk(words)?),
        "port" => Act::Port(disks::port(words)?),
        "attach" => alone(words, Act::Attach)?,
        "detach" => alone(words, Act::Detach)?,
        "test-unit-ready" => Act::Call(calls::test_unit_ready(words)?),
        "read-capacity" => Act::Call(calls::read_capacity(words)?),
        "read10" => Act::Call(calls::read10(words)?),
        "write10" => Act::Call(calls::write10(words)?),
        "cdb" => Act::Call(calls::cdb(words)?),
        _ => return Err(Wrong::Act),
    };
    Ok(Some(act))
}
