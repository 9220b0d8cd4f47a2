//! Tests of the library on examples.

#![tactic(auto)]

#[cfg(test)]
mod bad_line;
#[cfg(test)]
mod holders;
#[cfg(test)]
mod table;
#[cfg(test)]
mod unit_on_disk;
