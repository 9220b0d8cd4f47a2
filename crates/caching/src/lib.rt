//! The caching disk: an image in memory of 1,026 bytes a block, whose writes may wait in a cache.

#![tactic(auto)]

mod caching_disk;
mod drive;
mod kind;
mod make;
mod sides;

pub use caching_disk::CachingDisk;
