//! Slips in hand: from the failed command that handed a slip out until it is entered or given up.

#![tactic(auto)]

mod commands;
mod held;

pub use commands::command;
pub use held::{Hand, NotEntered};
