//! SCSI command descriptor blocks: their lengths, their fields, and the commands that they name.

#![tactic(auto)]

mod command;
mod form;
mod operation;
mod request;

pub use command::{Command, Extent};
pub use request::{Request, receive};
