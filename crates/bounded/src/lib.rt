//! A bounded list: as many entries, of any kind, as the slice that is lent to it has places.

#![tactic(auto)]

mod list;

pub use list::Bounded;
