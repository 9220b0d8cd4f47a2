//! The hand itself: slips are found by their numbers.

ghost use Rattle.std.specs.Prelude.{◌≡◌, ◌<◌, ◌≤◌, [], ◌∷◌, ◌++◌, length, is_some, vec_len, vec_capacity, MatchOption, OnOk, slice_index_or};
ghost use Rattle.std.specs.List.{position};
ghost use Rattle.slips.specs.Slips.{line_of};
ghost use Rattle.slips.specs.Sheets.{sheet_of};
ghost use Rattle.hand.specs.Hands.{slips_of, blank, has_number, picked, Enters, GivesUp, all_given_up};

use sense::Refusal;
use slips::{Line, RunSheet, Slip};
use std::alloc::{AllocError, Global};

/// The slips that were handed out and not yet entered or given up, in the order in which they came.
pub struct Hand {
    slips: Vec<Slip>,
}

/// Why a slip was not entered: no slip in hand has the number, or the sheet refused it and it stays in hand.
#[derive(Clone, Copy)]
pub enum NotEntered {
    NotInHand,
    Refused(Refusal),
}

impl Hand {
    pub fn new(heap: Global) -> Hand
        ensures { slips_of result ≡ [] }
    {
        Hand {
            slips: Vec::new(heap),
        }
    }

    /// How many slips are in hand.
    pub fn len(&self) -> usize
        ensures { result ≡ length (slips_of self.now) }
    {
        self.slips.len()
    }

    /// What the slip at a position says, counted from 0.
    pub fn line(&self, at: usize) -> Option<Line>
        ensures { MatchOption result (length (slips_of self.now) ≤ at) (λ x. (at < length (slips_of self.now)) × (x ≡ line_of (slice_index_or (slips_of self.now) at blank))) }
    {
        self.slips.get(at).map(|slip| slip.line())
    }

    // Room for one slip more, so that a slip is never left without a place.
    pub(crate) fn make_room(&mut self) -> Result<(), AllocError>
        ensures slips { slips_of self.new ≡ slips_of self.old }
        ensures room { OnOk result (vec_len self.new.slips < vec_capacity self.new.slips) }
    {
        self.slips.reserve(1)
    }

    pub(crate) fn take_in(&mut self, slip: Slip)
        requires { vec_len self.old.slips < vec_capacity self.old.slips }
        ensures { slips_of self.new ≡ slips_of self.old ++ (slip ∷ []) }
    {
        self.slips.push_reserved(slip);
    }

    // The position of the first slip with the number.
    fn find(&self, number: u64) -> Option<usize>
        ensures { result ≡ position (has_number number) (slips_of self.now) }
    {
        self.slips.iter().position(|slip| slip.number() == number)
    }

    /// Whether a slip of that number is in hand.
    #[tactic(auto, using(crate::proofs::Picks::held))]
    pub fn holds(&self, number: u64) -> bool
        ensures { result ≡ is_some (picked number (slips_of self.now)) }
    {
        self.find(number).is_some()
    }

    /// Enters the slip of that number on a sheet. Where the sheet is full the slip stays in hand.
    pub fn enter(&mut self, number: u64, sheet: &mut RunSheet<'_>) -> Result<Line, NotEntered>
        ensures { Enters number (slips_of self.old) (sheet_of sheet.old) result (slips_of self.new) (sheet_of sheet.new) }
    {
        let at = self.find(number).ok_or(NotEntered::NotInHand)?;
        if sheet.is_full() {
            return Err(NotEntered::Refused(Refusal::SheetFull));
        }
        let slip = self.slips.remove(at);
        let line = slip.line();
        match sheet.enter(slip) {
            Ok(()) => Ok(line),
            Err(_) => unreachable(),
        }
    }

    /// Gives up the slip of that number, which a sheet counts; none where no slip in hand has it.
    pub fn give_up(&mut self, number: u64, sheet: &mut RunSheet<'_>) -> Option<Line>
        ensures { GivesUp number (slips_of self.old) (sheet_of sheet.old) result (slips_of self.new) (sheet_of sheet.new) }
    {
        let at = self.find(number)?;
        let slip = self.slips.remove(at);
        let line = slip.line();
        sheet.give_up(slip);
        Some(line)
    }

    /// Gives up every slip in hand, each counted by a sheet, and ends the hand.
    pub fn give_up_all(mut self, sheet: &mut RunSheet<'_>)
        ensures { sheet_of sheet.new ≡ all_given_up (length (slips_of self)) (sheet_of sheet.old) }
    {
        while let Some(last) = self.slips.pop() {
            sheet.give_up(last);
        }
        let Hand { slips } = self;
        slips.destroy_empty();
    }
}
