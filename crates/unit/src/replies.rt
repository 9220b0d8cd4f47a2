//! What a command comes to.

ghost use Rattle.std.specs.Prelude.{◌≡◌};
ghost use Rattle.unit.specs.Replies.{replied, stopped_at};

use sense::Sense;
use transfer::{Fault, Place, Tally};

/// GOOD, or CHECK CONDITION with what tells of its fault; either with the bytes put into data-in and the ATA commands sent.
// No Result: a CHECK CONDITION tells its bytes and commands too.
#[derive(Clone, Copy)]
pub enum Reply<F> {
    Good(Tally),
    Check(F, Tally),
}

impl Reply<Fault> {
    /// The reply to a command that the drive was asked for.
    pub(crate) fn from_drive(tally: Tally, verdict: Result<(), Fault>) -> Reply<Fault>
        ensures { result ≡ replied verdict tally }
    {
        match verdict {
            Ok(()) => Reply::Good(tally),
            Err(fault) => Reply::Check(fault, tally),
        }
    }

    /// The reply to a command that was stopped before the drive was asked for anything.
    pub(crate) fn stopped(place: Place, sense: Sense) -> Reply<Fault>
        ensures { result ≡ stopped_at place sense }
    {
        let fault = Fault {
            sense,
            block: None,
            place,
        };
        Reply::Check(
            fault,
            Tally {
                bytes: 0,
                commands: 0,
            },
        )
    }
}
