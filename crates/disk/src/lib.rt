//! What disks over an image in memory share.

#![tactic(auto)]

mod answer;
mod cell;
mod copy;
mod order;
mod power;
mod words;

pub use answer::{ABORTED, answer_for};
pub use cell::{BLOCK, CELL, LARGEST, content_at, write_cell};
pub use copy::copy_cell;
pub use order::{Order, blocks_named, order_of};
pub use power::{Power, Supply};
pub use words::{Claims, identify_words};
