//! The calls that a line can make: each function takes the words after the act's name.

use crate::numbers::{byte, number16, number32};
use crate::words::{Extra, Extras, Words, extra_of};
use acts::{Call, Wrong};
use host::{read_capacity_cdb, read10_cdb, test_unit_ready_cdb, write10_cdb};

/// No words.
pub(crate) fn test_unit_ready(words: Words<'_>) -> Result<Call, Wrong> {
    let heap = words.heap;
    words.none_left()?;
    let cdb = Vec::from_slice(heap, &test_unit_ready_cdb())?;
    Ok(Extras::default().call(cdb))
}

/// `[show=N]`
pub(crate) fn read_capacity(words: Words<'_>) -> Result<Call, Wrong> {
    let cdb = Vec::from_slice(words.heap, &read_capacity_cdb())?;
    let mut extras = words.extras(|extra| matches!(extra, Extra::Show(_)))?;
    extras.into = 8;
    Ok(extras.call(cdb))
}

/// `BLOCK COUNT [fua] [show=N]`
pub(crate) fn read10(mut words: Words<'_>) -> Result<Call, Wrong> {
    let heap = words.heap;
    let block = number32(words.needed()?)?;
    let count = number16(words.needed()?)?;
    let mut extras = words.extras(|extra| matches!(extra, Extra::Fua | Extra::Show(_)))?;
    extras.into = 512 * count as usize;
    let cdb = Vec::from_slice(heap, &read10_cdb(block, count, extras.fua))?;
    Ok(extras.call(cdb))
}

// The CDB, the words taken and the way of the data are all that differ from READ: a function for both would take the three.

/// `BLOCK COUNT [fua] [fill=HH]`
pub(crate) fn write10(mut words: Words<'_>) -> Result<Call, Wrong> {
    let heap = words.heap;
    let block = number32(words.needed()?)?;
    let count = number16(words.needed()?)?;
    let mut extras = words.extras(|extra| matches!(extra, Extra::Fua | Extra::Fill(_)))?;
    extras.out = 512 * count as usize;
    let cdb = Vec::from_slice(heap, &write10_cdb(block, count, extras.fua))?;
    Ok(extras.call(cdb))
}

/// `HH HH .. [in=N] [out=N] [fill=HH] [show=N]`
pub(crate) fn cdb(words: Words<'_>) -> Result<Call, Wrong> {
    let Words { heap, rest } = words;
    let mut cdb = Vec::new(heap);
    let mut extras = Extras::default();
    for word in rest {
        if word.contains('=') {
            extras.add(extra_of(word)?);
        } else {
            cdb.push(byte(word)?)?;
        }
    }
    Ok(extras.call(cdb))
}
