//! The functions that C calls: the result table and the sense data, on numbers and byte slices.

#![tactic(auto)]

ghost use Rattle.std.specs.Prelude.{◌≡◌, ◌++◌, length, drop, if◌then◌else◌, Some, nat_lt};
ghost use Rattle.sense.specs.declared.refusal.Refusal.TheVariants.{SenseBufferShort};
ghost use Rattle.sense.specs.Cases.{triple, values_of};
ghost use Rattle.sense.specs.Data.{sense_data};
ghost use Rattle.sense.specs.Refusals.{number_of};
ghost use Rattle.sense.specs.Table.{result_of};

use sense::SenseValues;

/// The values of the case that a drive's status and error bytes mean.
#[unsafe(no_mangle)]
pub extern "C" fn sense_result(status: u8, error: u8) -> SenseValues
    ensures { result ≡ values_of (result_of status error) }
{
    sense::sense_result(status, error)
}

/// Writes the sense data, without the block where `block` is 2^32 or more. Returns 0, or the number of the refusal.
#[unsafe(no_mangle)]
pub extern "C" fn sense_write(out: &mut [u8], key: u8, code: u8, qualifier: u8, block: u64) -> u32
    ensures answer { result ≡ (if nat_lt (length out.old) 18 then number_of SenseBufferShort else 0) }
    ensures buffer { out.new ≡ (if nat_lt (length out.old) 18 then out.old else sense_data (triple key code qualifier) (Some block) ++ drop 18 out.old) }
{
    sense::sense_write(out, key, code, qualifier, block)
}
