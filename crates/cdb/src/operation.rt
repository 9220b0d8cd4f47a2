//! Operation codes.

ghost use Rattle.std.specs.Prelude.{◌≡◌};
ghost use Rattle.cdb.specs.Requests.{operation_of, length_fits};

use crate::form::{CdbForm, Ten};

/// What an operation code asks for.
#[derive(Clone, Copy)]
pub(crate) enum Operation {
    TestUnitReady,
    ReadCapacity,
    Read,
    Write,
    Unknown,
}

impl From<u8> for Operation {
    ghost from_gives = { λ code operation. operation ≡ operation_of code };

    fn from(code: u8) -> Operation {
        match code {
            0x00 => Operation::TestUnitReady,
            0x25 => Operation::ReadCapacity,
            0x28 => Operation::Read,
            0x2A => Operation::Write,
            _ => Operation::Unknown,
        }
    }
}

/// Whether a CDB of that code may have that length: its group of codes fixes it, where it fixes any.
pub(crate) fn length_fits(code: u8, length: usize) -> bool
    ensures { result ≡ length_fits code length }
{
    match code {
        0x00..=0x1F => length == 6,
        0x20..=0x5F => length == Ten::LENGTH,
        0x60..=0x7F => true,
        0x80..=0x9F => length == 16,
        0xA0..=0xBF => length == 12,
        0xC0..=0xFF => true,
    }
}
