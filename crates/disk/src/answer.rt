//! What a disk says of a command.

ghost use Rattle.std.specs.Prelude.{◌≡◌};
ghost use Rattle.ata.specs.Commands.{answered};

use ata::{Answer, Stop};

/// The answer to a command that is not taken.
pub const ABORTED: Answer = Answer {
    status: 0x41,
    error: 0x04,
    block: 0,
};

/// The answer to a command whose steps ended so.
pub fn answer_for(end: Result<(), Stop>) -> Answer
    ensures { result ≡ answered «end» }
{
    match end {
        Ok(()) => Answer {
            status: 0x40,
            error: 0,
            block: 0,
        },
        Err(Stop::Unreadable(block)) => Answer {
            status: 0x41,
            error: 0x40,
            block,
        },
        Err(Stop::Cut) => Answer {
            status: 0,
            error: 0,
            block: 0,
        },
    }
}
