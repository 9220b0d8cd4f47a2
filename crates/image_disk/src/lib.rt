//! A disk of any kind over an image: how its steps make its commands, and its commands make it a drive.

#![tactic(auto)]

mod commands;
mod kind;
mod order;
mod runs;
mod serve;
mod span;
mod steps;

pub use kind::ImageDisk;
pub use serve::{data_in, data_out, no_data, words_in};
