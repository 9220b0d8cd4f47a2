//! Transfers between a host's buffers and any drive, in pieces that the drive takes.

#![tactic(auto)]

mod address;
mod ask;
mod conversation;
mod counts;
mod faults;
mod orders;
mod pieces;
mod reading;
mod tasks;
mod writing;

pub use address::Lba;
pub use ask::judge;
pub use counts::Tally;
pub use faults::{Fault, Place};
pub use orders::order;
pub use reading::read;
pub use tasks::{Width, task};
pub use writing::{Force, write};
