//! A port between a bay and any drive, which limits the blocks that one command may move.

#![tactic(auto)]

mod limit;
mod over;

pub use limit::Port;
