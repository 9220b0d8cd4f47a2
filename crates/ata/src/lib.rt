//! What an ATA drive is: task files go in, answers come out, and every kind of drive keeps one meaning.

#![tactic(auto)]

mod answer;
mod drive;
mod laws;
mod task;

pub use answer::{Answer, Stop};
pub use drive::Drive;
pub use laws::{flush_settles, freedom_is_unseen, pieces_join, stays_level, through_settles};
pub use task::{AtaCommand, Feature, TaskFile};
