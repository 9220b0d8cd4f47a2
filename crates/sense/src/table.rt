//! The result table: what a drive's status and error bytes mean.

ghost use Rattle.std.specs.Prelude.{◌≡◌};
ghost use Rattle.sense.specs.Table.{result_of};

use crate::case::Sense;

// Status bit 5: device fault.
const DF: u8 = 0x20;

// Status bit 0: error.
const ERR: u8 = 0x01;

// Error bit 7: CRC error on the interface.
const ICRC: u8 = 0x80;

// Error bit 6: uncorrectable data.
const UNC: u8 = 0x40;

// Error bit 4: address not found.
const IDNF: u8 = 0x10;

/// The case of the first row that fits.
pub fn result(status: u8, error: u8) -> Sense
    ensures { result ≡ result_of status error }
{
    if status == 0 {
        Sense::NoAnswer
    } else if status & DF != 0 {
        Sense::DeviceFault
    } else if status & ERR == 0 {
        Sense::NoSense
    } else if error & ICRC != 0 {
        Sense::InterfaceCrc
    } else if error & UNC != 0 {
        Sense::Unreadable
    } else if error & IDNF != 0 {
        Sense::NotFound
    } else {
        Sense::Aborted
    }
}
