//! What a drive says of a command.

/// The status and error registers, and the block that the answer is about.
#[derive(Clone, Copy, PartialEq, Eq, Debug)]
pub struct Answer {
    pub status: u8,
    pub error: u8,
    pub block: u64,
}

/// Why a step was not done: it met an unreadable block, or its power failed.
#[derive(Clone, Copy, PartialEq, Eq, Debug)]
pub enum Stop {
    Unreadable(u64),
    Cut,
}
