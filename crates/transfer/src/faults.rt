//! What goes wrong with a command, carried whole from where it is found to the host.

use sense::Sense;
use std::fmt;

/// Where a command was stopped.
#[derive(Clone, Copy)]
pub enum Place {
    Unit,
    Cdb,
    Drive,
}

impl fmt::Display for Place {
    fn fmt<W: fmt::Write>(&self, f: &mut fmt::Formatter<W>) -> fmt::Result {
        f.write_str(match self {
            Place::Unit => "unit",
            Place::Cdb => "CDB",
            Place::Drive => "drive",
        })
    }
}

/// The cause, the block where one is to be named, and the place.
#[derive(Clone, Copy)]
pub struct Fault {
    pub sense: Sense,
    pub block: Option<u64>,
    pub place: Place,
}
