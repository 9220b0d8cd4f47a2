//! Commands that move no data.

ghost use Rattle.std.specs.Prelude.{ℕ, List, [], ◌∷◌};
ghost use Rattle.transfer.specs.Talk.{Held, none_yet};
ghost use Rattle.transfer.specs.Asks.{plain_ask};

use crate::conversation::Conversation;
use crate::counts::Tally;
use crate::faults::Fault;
use ata::{Drive, TaskFile};

/// Sends one command that moves no data.
pub fn order<D: Drive>(drive: &mut D, task: TaskFile) -> (Tally, Result<(), Fault>)
    ensures { (b : List ℕ) → Held D.Drive.does (plain_ask task ∷ []) drive.old b none_yet drive.new b result.0 result.1 }
{
    let mut talk = Conversation::new(drive);
    let verdict = talk.order(task);
    (talk.tally, verdict)
}
