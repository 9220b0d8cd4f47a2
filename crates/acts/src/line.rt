//! Acts with their lines.

ghost use Rattle.std.specs.Prelude.{◌≡◌};

use crate::act::Act;
use crate::stop::{Misfit, Reason, Stop};
use std::fmt;

/// An act, with its line as written.
#[derive(Drop)]
pub struct Line {
    pub number: u64,
    pub text: String,
    pub act: Act,
}

impl Line {
    /// The act does not fit the state of the bay.
    pub fn misfit(&self, why: Misfit) -> Stop
        ensures { result ≡ record { line = self.now.number; why = Reason.Misfit why } }
    {
        Stop {
            line: self.number,
            why: Reason::Misfit(why),
        }
    }
}

impl fmt::Display for Line {
    fn fmt<W: fmt::Write>(&self, f: &mut fmt::Formatter<W>) -> fmt::Result {
        let number = self.number;
        let text = self.text.as_str();
        write!(f, "{number}: {text}")
    }
}

/// The acts, and the line that makes no sense, if one does.
#[derive(Drop)]
pub struct Script {
    pub lines: Vec<Line>,
    pub bad: Option<Stop>,
}
