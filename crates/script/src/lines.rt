//! A whole script: its acts, up to the first line that makes no sense.

ghost use Rattle.std.specs.Prelude.{IfOk};
ghost use Rattle.script.specs.Lines.{InOrder};

use crate::line::{parse, written};
use acts::{Line, Script, Stop};
use std::alloc::{AllocError, Global};

/// Reads a text as a script. Its lines are numbered from 1.
pub fn read_script(heap: Global, text: &str) -> Result<Script, AllocError>
    ensures { IfOk result InOrder }
{
    let mut lines = Vec::new(heap);
    for (before, line) in text.lines().enumerate() {
        let number = before as u64 + 1;
        let act = match parse(heap, line) {
            Ok(None) => continue,
            Ok(Some(act)) => act,
            Err(wrong) => {
                let bad = Some(Stop {
                    line: number,
                    why: wrong.into(),
                });
                return Ok(Script { lines, bad });
            }
        };
        let text = String::from_str(heap, written(line))?;
        lines.push(Line { number, text, act })?;
    }
    Ok(Script { lines, bad: None })
}
