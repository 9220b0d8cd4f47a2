//! The sense cases that the unit can report, and the three values of each.

ghost use Rattle.std.specs.Prelude.{◌≡◌};
ghost use Rattle.sense.specs.Cases.{values_of};

/// A sense key, an additional sense code and its qualifier.
#[repr(C)]
#[derive(Clone, Copy, PartialEq, Eq, Debug)]
pub struct SenseValues {
    pub key: u8,
    pub code: u8,
    pub qualifier: u8,
}

#[derive(Clone, Copy, PartialEq, Eq, Debug)]
pub enum Sense {
    /// Nothing to report.
    NoSense,
    /// The drive does not answer: communication failure.
    NoAnswer,
    /// The drive reports a fault of its own: internal target failure.
    DeviceFault,
    /// A CRC error on the interface.
    InterfaceCrc,
    /// Unrecovered read error.
    Unreadable,
    /// The block is not found on the medium.
    NotFound,
    /// The drive aborted the command.
    Aborted,
    /// Unit attention: power on or reset.
    Attention,
    /// Unknown operation code.
    UnknownCode,
    /// Invalid field in the CDB.
    WrongField,
    /// A block past the end of the medium.
    PastEnd,
}

impl From<Sense> for SenseValues {
    ghost from_gives = { λ sense values. values ≡ values_of sense };

    /// The values of the case.
    fn from(sense: Sense) -> SenseValues {
        let (key, code, qualifier) = match sense {
            Sense::NoSense => (0, 0x00, 0x00),
            Sense::NoAnswer => (4, 0x08, 0x00),
            Sense::DeviceFault => (4, 0x44, 0x00),
            Sense::InterfaceCrc => (0xB, 0x47, 0x03),
            Sense::Unreadable => (3, 0x11, 0x00),
            Sense::NotFound => (3, 0x14, 0x00),
            Sense::Aborted => (0xB, 0x00, 0x00),
            Sense::Attention => (6, 0x29, 0x00),
            Sense::UnknownCode => (5, 0x20, 0x00),
            Sense::WrongField => (5, 0x24, 0x00),
            Sense::PastEnd => (5, 0x21, 0x00),
        };
        SenseValues {
            key,
            code,
            qualifier,
        }
    }
}
