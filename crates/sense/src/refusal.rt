//! Why a call is refused, and the number of each reason.

ghost use Rattle.std.specs.Prelude.{◌≡◌};
ghost use Rattle.sense.specs.Refusals.{number_of};

#[derive(Clone, Copy, PartialEq, Eq, Debug)]
pub enum Refusal {
    /// The CDB has the wrong length.
    CdbLength = 1,
    /// The data-out buffer is too short.
    DataOutShort = 2,
    /// The data-in buffer is too short.
    DataInShort = 3,
    /// Each place of the run sheet holds a line.
    SheetFull = 5,
    /// The sense buffer is too short.
    SenseBufferShort = 6,
}

impl From<Refusal> for u8 {
    ghost from_gives = { λ refusal number. number ≡ number_of refusal };

    /// The number of the refusal.
    fn from(refusal: Refusal) -> u8 {
        refusal as u8
    }
}
