//! What the script of a lab session comes to: its acts on their lines, and why it stops.

#![tactic(auto)]

mod act;
mod line;
mod stop;
mod wrong;

pub use act::{Act, Call, DiskKind, DiskPlan};
pub use line::{Line, Script};
pub use stop::{Misfit, Reason, Stop};
pub use wrong::Wrong;
