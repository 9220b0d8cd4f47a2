//! The result table and the sense data on numbers and byte slices, as C calls them through the crate `sense_c`.

ghost use Rattle.std.specs.Prelude.{◌≡◌, ◌++◌, length, drop, if◌then◌else◌, Some, nat_lt};
ghost use Rattle.sense.specs.declared.refusal.Refusal.TheVariants.{SenseBufferShort};
ghost use Rattle.sense.specs.Cases.{triple, values_of};
ghost use Rattle.sense.specs.Data.{sense_data};
ghost use Rattle.sense.specs.Refusals.{number_of};
ghost use Rattle.sense.specs.Table.{result_of};

use crate::case::SenseValues;
use crate::data::write_sense;
use crate::table::result;

/// The values of the case that a drive's status and error bytes mean.
pub fn sense_result(status: u8, error: u8) -> SenseValues
    ensures { result ≡ values_of (result_of status error) }
{
    result(status, error).into()
}

/// Writes the sense data, without the block where `block` is 2^32 or more. Returns 0, or the number of the refusal.
pub fn sense_write(out: &mut [u8], key: u8, code: u8, qualifier: u8, block: u64) -> u32
    ensures answer { result ≡ (if nat_lt (length out.old) 18 then number_of SenseBufferShort else 0) }
    ensures buffer { out.new ≡ (if nat_lt (length out.old) 18 then out.old else sense_data (triple key code qualifier) (Some block) ++ drop 18 out.old) }
{
    let values = SenseValues {
        key,
        code,
        qualifier,
    };
    match write_sense(out, values, Some(block)) {
        Ok(()) => 0,
        Err(refusal) => u32::from(u8::from(refusal)),
    }
}
