//! What a command has come to so far.

ghost use Rattle.std.specs.Prelude.{◌≡◌, ◌+◌, ◌^◌, ◌<◌};
ghost use Rattle.transfer.specs.Talk.{judged, none_yet};

use crate::ask::judge;
use crate::faults::Fault;
use ata::Answer;

/// The bytes put into data-in, and the ATA commands sent.
#[derive(Clone, Copy)]
pub struct Tally {
    pub bytes: usize,
    pub commands: u64,
}

impl Tally {
    pub(crate) fn new() -> Tally
        ensures { result ≡ none_yet }
    {
        Tally {
            bytes: 0,
            commands: 0,
        }
    }

    // That the count has room is known where the number of pieces is known, and is asked for up to there.
    /// Counts a command by its answer, and judges it.
    pub(crate) fn hear(&mut self, answer: Answer) -> Result<(), Fault>
        requires { self.old.commands + 1 < 2 ^ 64 }
        ensures commands { self.new.commands ≡ self.old.commands + 1 }
        ensures bytes { self.new.bytes ≡ self.old.bytes }
        ensures judged { result ≡ judged answer }
    {
        self.commands += 1;
        judge(answer)
    }
}
