//! Fixed-format sense data: its 18 bytes, and writing them into a buffer.

ghost use Rattle.std.specs.Prelude.{◌≡◌, ◌++◌, length, drop, if◌then◌else◌, Ok, Err, nat_lt};
ghost use Rattle.sense.specs.Data.{fixed_format, sense_data};

use crate::case::SenseValues;
use crate::refusal::Refusal;

/// The length of fixed-format sense data.
pub const SENSE_LENGTH: usize = 18;

// The bytes, with the information high byte first.
fn fixed_format(first: u8, information: u32, values: SenseValues) -> [u8; SENSE_LENGTH]
    ensures { result ≡ fixed_format first information values }
{
    let [high, upper, lower, low] = information.to_be_bytes();
    [
        first,
        0,
        values.key,
        high,
        upper,
        lower,
        low,
        0x0A,
        0,
        0,
        0,
        0,
        values.code,
        values.qualifier,
        0,
        0,
        0,
        0,
    ]
}

// The data of the values, with the block where four bytes hold it.
fn sense_bytes(values: SenseValues, block: Option<u64>) -> [u8; SENSE_LENGTH]
    ensures { result ≡ sense_data values block }
{
    match block.map(u32::try_from) {
        Some(Ok(information)) => fixed_format(0xF0, information, values),
        _ => fixed_format(0x70, 0, values),
    }
}

/// Writes the sense data into the first 18 bytes; a shorter buffer is refused, and stays as it is.
pub fn write_sense(out: &mut [u8], values: SenseValues, block: Option<u64>) -> Result<(), Refusal>
    ensures answer { result ≡ (if nat_lt (length out.old) 18 then Err Refusal.SenseBufferShort else Ok tt) }
    ensures buffer { out.new ≡ (if nat_lt (length out.old) 18 then out.old else sense_data values block ++ drop 18 out.old) }
{
    if out.len() < SENSE_LENGTH {
        return Err(Refusal::SenseBufferShort);
    }
    let bytes = sense_bytes(values, block);
    let front = &mut out[0..SENSE_LENGTH];
    front.copy_from_slice(&bytes);
    Ok(())
}
