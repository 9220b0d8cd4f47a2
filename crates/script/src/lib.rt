//! How a text reads as a lab session's script, line by line.

#![tactic(auto)]

mod calls;
mod disks;
mod line;
mod lines;
mod numbers;
mod words;

pub use line::{parse, written};
pub use lines::read_script;
