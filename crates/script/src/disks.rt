//! The disks that a line can plan: each function takes the words after the act's name.

use crate::numbers::number32;
use crate::words::Words;
use acts::{DiskKind, DiskPlan, Wrong};

/// `plain BLOCKS [bad=N,N,..]`, or `caching BLOCKS [bad=N,N,..] [cache=on|off] [fua=on|off]`
pub(crate) fn disk(mut words: Words<'_>) -> Result<DiskPlan, Wrong> {
    let mut kind = kind(words.needed()?)?;
    let blocks = number32(words.needed()?)?;
    let mut bad = Vec::new(words.heap);
    for word in words.rest {
        let Some((name, value)) = word.split_once('=') else {
            return Err(Wrong::Word);
        };
        if name == "bad" {
            add_blocks(&mut bad, value, blocks)?;
        } else {
            set(&mut kind, name, value)?;
        }
    }
    Ok(DiskPlan { blocks, bad, kind })
}

// The kind, as it is where nothing more is said.
fn kind(word: &str) -> Result<DiskKind, Wrong> {
    match word {
        "plain" => Ok(DiskKind::Plain),
        "caching" => Ok(DiskKind::Caching {
            cache: true,
            through: false,
        }),
        _ => Err(Wrong::Kind),
    }
}

// A switch of a caching disk.
fn set(kind: &mut DiskKind, name: &str, value: &str) -> Result<(), Wrong> {
    let DiskKind::Caching { cache, through } = kind else {
        return Err(Wrong::Word);
    };
    match name {
        "cache" => *cache = switch(value)?,
        "fua" => *through = switch(value)?,
        _ => return Err(Wrong::Word),
    }
    Ok(())
}

/// `on` or `off`
fn switch(word: &str) -> Result<bool, Wrong> {
    match word {
        "on" => Ok(true),
        "off" => Ok(false),
        _ => Err(Wrong::Word),
    }
}

/// `N,N,..`, each below the number of blocks.
fn add_blocks(bad: &mut Vec<u32>, list: &str, blocks: u32) -> Result<(), Wrong> {
    for entry in list.split(',') {
        let block = number32(entry)?;
        if block >= blocks {
            return Err(Wrong::PastEnd);
        }
        bad.push(block)?;
    }
    Ok(())
}

/// `LIMIT`
pub(crate) fn port(mut words: Words<'_>) -> Result<u32, Wrong> {
    let limit = number32(words.needed()?)?;
    words.none_left()?;
    Ok(limit)
}
