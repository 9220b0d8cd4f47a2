//! One SCSI unit over any ATA drive, whose failed commands hand out slips, and the run sheet on which slips are entered.

#![tactic(auto)]

mod attached;
mod sheet;
mod slips;

pub use attached::Unit;
pub use sheet::RunSheet;
pub use slips::{HandedBack, Line, Slip};
