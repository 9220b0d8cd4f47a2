//! The numbers of a line.

ghost use Rattle.std.specs.Prelude.{◌≡◌, ◌≤◌};
ghost use Rattle.script.specs.Digits.{hex_digit, byte_of, base_of, digits_of, Reads};

use acts::Wrong;

// The library has it of a `char` and of any base; here it is a byte's, in one table.
fn hex_digit(c: u8) -> Option<u8>
    ensures { result ≡ hex_digit c }
{
    match c {
        b'0'..=b'9' => Some(c - b'0'),
        b'A'..=b'F' => Some(c - b'A' + 10),
        b'a'..=b'f' => Some(c - b'a' + 10),
        _ => None,
    }
}

/// A byte of two hexadecimal digits.
// `from_str_radix` would take a sign for one of them.
pub(crate) fn byte(word: &str) -> Result<u8, Wrong>
    ensures { result ≡ byte_of word.now }
{
    let [high, low] = word.as_bytes() else {
        return Err(Wrong::Byte);
    };
    match (hex_digit(*high), hex_digit(*low)) {
        (Some(h), Some(l)) => Ok(h * 16 + l),
        _ => Err(Wrong::Byte),
    }
}

/// The base of a number and its digits: 16 after 0x, else 10.
fn base(word: &str) -> (u32, &str)
    ensures base { result.0 ≡ base_of word.now }
    ensures digits { result.1.now ≡ digits_of word.now }
    ensures bounds { (10 ≤ result.0) × (result.0 ≤ 16) }
{
    match word.strip_prefix("0x") {
        Some(digits) => (16, digits),
        None => (10, word),
    }
}

/// A number of 64 bits.
pub(crate) fn number(word: &str) -> Result<u64, Wrong>
    ensures { Reads 64 word.now result }
{
    let (radix, digits) = base(word);
    Ok(u64::from_str_radix(digits, radix)?)
}

// Two lines of code: one generic function would need a trait that says each type's width for its contract.

/// A number of 32 bits.
pub(crate) fn number32(word: &str) -> Result<u32, Wrong>
    ensures { Reads 32 word.now result }
{
    Ok(u32::try_from(number(word)?)?)
}

/// A number of 16 bits.
pub(crate) fn number16(word: &str) -> Result<u16, Wrong>
    ensures { Reads 16 word.now result }
{
    Ok(u16::try_from(number(word)?)?)
}
