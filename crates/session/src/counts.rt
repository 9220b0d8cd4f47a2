//! What a session has come to so far.

ghost use Rattle.std.specs.Prelude.{◌≡◌};
ghost use Rattle.session.specs.Counting.{after_answer};

use crate::shown::Number;
use sense::Refusal;
use std::fmt;
use transfer::Fault;
use unit::Reply;

/// The acts begun, the commands by what they came to, and the ATA commands that the units sent.
#[derive(Clone, Copy, Default)]
pub struct Counts {
    pub acts: u64,
    pub good: u64,
    pub check: u64,
    pub refused: u64,
    pub commands: u64,
}

impl Counts {
    pub fn count_answer(&mut self, answer: Result<Reply<Fault>, Refusal>)
        ensures { self.new ≡ after_answer answer self.old }
    {
        match answer {
            Ok(Reply::Good(tally)) => {
                self.good = self.good.saturating_add(1);
                self.commands = self.commands.saturating_add(tally.commands);
            }
            Ok(Reply::Check(_, tally)) => {
                self.check = self.check.saturating_add(1);
                self.commands = self.commands.saturating_add(tally.commands);
            }
            Err(_) => self.refused = self.refused.saturating_add(1),
        }
    }
}

impl fmt::Display for Counts {
    fn fmt<W: fmt::Write>(&self, f: &mut fmt::Formatter<W>) -> fmt::Result {
        let Counts {
            acts,
            good,
            check,
            refused,
            commands,
        } = *self;
        let acts = Number(acts, "act");
        let commands = Number(commands, "ATA command");
        write!(
            f,
            "{acts}: {good} GOOD, {check} CHECK CONDITION, {refused} refused; {commands}"
        )
    }
}
