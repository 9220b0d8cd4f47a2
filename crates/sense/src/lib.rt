//! What the unit reports: sense cases and refusals, the result table and the sense data.

#![tactic(auto)]

mod c;
mod case;
mod data;
mod refusal;
mod table;
mod words;

pub use c::{sense_result, sense_write};
pub use case::{Sense, SenseValues};
pub use data::{SENSE_LENGTH, write_sense};
pub use refusal::Refusal;
pub use table::result;
