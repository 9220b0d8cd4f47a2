//! The plain disk: an image in memory of 513 bytes a block, whose writes are on the medium at once.

#![tactic(auto)]

mod drive;
mod kind;
mod make;
mod plain_disk;

pub use plain_disk::PlainDisk;
