//! One SCSI unit over any ATA drive: attach, command, detach.

#![tactic(auto)]

mod attach;
mod capacity;
mod execute;
mod known;
mod replies;
mod standing;

pub use attach::Unit;
pub use replies::Reply;
