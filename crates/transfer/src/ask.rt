//! What an answer comes to.

ghost use Rattle.std.specs.Prelude.{◌≡◌};
ghost use Rattle.transfer.specs.Talk.{judged};

use crate::faults::{Fault, Place};
use ata::Answer;
use sense::{Sense, result};

/// What an answer comes to by the result table; an unreadable block is named.
pub fn judge(answer: Answer) -> Result<(), Fault>
    ensures { result ≡ judged answer }
{
    match result(answer.status, answer.error) {
        Sense::NoSense => Ok(()),
        Sense::Unreadable => Err(Fault {
            sense: Sense::Unreadable,
            block: Some(answer.block),
            place: Place::Drive,
        }),
        sense => Err(Fault {
            sense,
            block: None,
            place: Place::Drive,
        }),
    }
}
