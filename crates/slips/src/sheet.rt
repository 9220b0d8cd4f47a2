//! The run sheet: slips are entered as lines, or given up and counted.

ghost use Rattle.std.specs.Prelude.{◌≡◌, ◌<◌, ◌≤◌, true, false, [], length, MatchOption, MatchResult, slice_index_or};
ghost use Rattle.slips.specs.Slips.{line_of};
ghost use Rattle.slips.specs.Sheets.{sheet_of, fresh, is_full, entered, one_given_up, Refused};

use crate::slips::{HandedBack, Line, Slip};
use bounded::Bounded;
use sense::Refusal;

/// As many lines as the slice lent to it has places, and the number of slips that were given up.
#[derive(Drop)]
pub struct RunSheet<'a> {
    lines: Bounded<'a, Line>,
    given_up: u32,
}

impl<'a> RunSheet<'a> {
    /// A sheet with no lines and no slip given up.
    pub fn new(places: &'a mut [Line]) -> RunSheet<'a>
        ensures { sheet_of result ≡ fresh (length places.old) }
    {
        RunSheet {
            lines: Bounded::new(places),
            given_up: 0,
        }
    }

    /// How many lines are entered.
    pub fn len(&self) -> usize
        ensures { result ≡ length (sheet_of self.now).lines }
    {
        self.lines.len()
    }

    /// How many lines there is room for.
    pub fn room(&self) -> usize
        ensures { result ≡ (sheet_of self.now).room }
    {
        self.lines.room()
    }

    /// Whether each place holds a line.
    pub fn is_full(&self) -> bool
        ensures { result ≡ is_full (sheet_of self.now) }
    {
        self.lines.is_full()
    }

    /// The line at a position, counted from 0.
    pub fn line(&self, at: usize) -> Option<Line>
        ensures { MatchOption result (length (sheet_of self.now).lines ≤ at) (λ x. (at < length (sheet_of self.now).lines) × (x ≡ slice_index_or (sheet_of self.now).lines at x)) }
    {
        self.lines.get(at)
    }

    /// How many slips were given up.
    pub fn given_up(&self) -> u32
        ensures { result ≡ (sheet_of self.now).given_up }
    {
        let RunSheet { lines: _, given_up } = self;
        *given_up
    }

    /// Enters a slip as a line, or hands it back where the sheet is full.
    pub fn enter(&mut self, slip: Slip) -> Result<(), HandedBack>
        ensures { MatchResult result
            (λ _. (is_full (sheet_of self.old) ≡ false) × (sheet_of self.new ≡ entered (line_of slip) (sheet_of self.old)))
            (λ back. (is_full (sheet_of self.old) ≡ true) × (back ≡ Refused slip) × (sheet_of self.new ≡ sheet_of self.old)) }
    {
        match self.lines.push(slip.line()) {
            Ok(()) => {
                slip.spend();
                Ok(())
            }
            Err(_) => Err(HandedBack {
                refusal: Refusal::SheetFull,
                slip,
            }),
        }
    }

    /// Gives a slip up: it is counted, and no line tells of it.
    pub fn give_up(&mut self, slip: Slip)
        ensures { sheet_of self.new ≡ one_given_up (sheet_of self.old) }
    {
        slip.spend();
        self.given_up = self.given_up.saturating_add(1);
    }
}
