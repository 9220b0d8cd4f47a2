//! Slips: one for each failed command. A slip is entered on the run sheet or given up, and can be let fall in no other way.

ghost use Rattle.std.specs.Prelude.{◌≡◌};
ghost use Rattle.slips.specs.Slips.{line_of};

use sense::{Refusal, Sense};
use transfer::{Fault, Place};

/// A slip as it is entered: its running number, the CDB's code, and the fault with its sense, its block and its place.
#[derive(Clone, Copy)]
pub struct Line {
    pub number: u64,
    pub code: u8,
    pub fault: Fault,
}

/// What a failed command hands out, with the line that it is to be entered as. Only a unit makes one.
pub struct Slip {
    line: Line,
}

/// A slip that was refused, and why.
pub struct HandedBack {
    pub refusal: Refusal,
    pub slip: Slip,
}

impl Slip {
    pub(crate) fn new(number: u64, code: u8, fault: Fault) -> Slip
        ensures { line_of result ≡ record { number = number; code = code; fault = fault } }
    {
        Slip {
            line: Line {
                number,
                code,
                fault,
            },
        }
    }

    pub fn number(&self) -> u64
        ensures { result ≡ (line_of self.now).number }
    {
        self.line.number
    }

    /// What the slip says, as a line would repeat it. The slip is still to be entered or given up.
    pub fn line(&self) -> Line
        ensures { result ≡ line_of self.now }
    {
        let Slip { line } = self;
        *line
    }

    // Only the run sheet spends a slip.
    pub(crate) fn spend(self) {
        let Slip { line: _ } = self;
    }
}

impl Line {
    /// What a place of a sheet holds before a line is entered there.
    pub const BLANK: Line = Line {
        number: 0,
        code: 0,
        fault: Fault {
            sense: Sense::NoSense,
            block: None,
            place: Place::Unit,
        },
    };
}
