//! A command whose slip, where one is handed out, is taken in hand.

ghost use Rattle.std.specs.Prelude.{◌≡◌, MatchResult};
ghost use Rattle.hand.specs.Hands.{slips_of};
ghost use Rattle.hand.specs.Answers.{Answered, Untouched};

use crate::held::Hand;
use ata::Drive;
use sense::Refusal;
use slips::{Line, Unit};
use std::alloc::AllocError;
use unit::Reply;

/// Carries out a command, and tells what its slip says. Where there is no memory for a slip nothing is done.
pub fn command<D: Drive>(
    unit: &mut Unit<D>,
    hand: &mut Hand,
    cdb: &[u8],
    out: &[u8],
    into: &mut [u8],
) -> Result<Result<Reply<Line>, Refusal>, AllocError>
    ensures { MatchResult result
        (λ a. Answered D.Drive.does D.Drive.meaning unit.old (slips_of hand.old) cdb.now out.now into.old unit.new (slips_of hand.new) into.new a)
        (λ _. Untouched unit.old (slips_of hand.old) into.old unit.new (slips_of hand.new) into.new) }
{
    hand.make_room()?;
    // As there, a closure that changes the hand would leave open what it did to it.
    match unit.command(cdb, out, into) {
        Err(refusal) => Ok(Err(refusal)),
        Ok(Reply::Good(tally)) => Ok(Ok(Reply::Good(tally))),
        Ok(Reply::Check(slip, tally)) => {
            let line = slip.line();
            hand.take_in(slip);
            Ok(Ok(Reply::Check(line, tally)))
        }
    }
}
