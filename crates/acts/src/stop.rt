//! Why a session ends before its script does.

use crate::wrong::Wrong;
use thiserror::Error;

/// Why an act does not fit the state of the bay.
#[derive(Clone, Copy, PartialEq, Eq, Debug, Error)]
pub enum Misfit {
    #[error("there is a disk already")]
    SecondDisk,
    #[error("there is no disk")]
    NoDisk,
    #[error("a disk is attached already")]
    Attached,
    #[error("no disk is attached")]
    NotAttached,
    /// Any other reason, in its own words.
    #[error("{0}")]
    Other(&'static str),
}

/// Why a session ends: a line that makes no sense, or an act that does not fit.
#[derive(Clone, Copy, PartialEq, Eq, Debug, Error)]
pub enum Reason {
    #[error(transparent)]
    Wrong(#[from] Wrong),
    #[error(transparent)]
    Misfit(#[from] Misfit),
}

/// A line that makes no sense, or whose act does not fit the state of the bay.
#[derive(Clone, Copy, PartialEq, Eq, Debug, Error)]
#[error("line {line}: {why}")]
pub struct Stop {
    pub line: u64,
    pub why: Reason,
}
