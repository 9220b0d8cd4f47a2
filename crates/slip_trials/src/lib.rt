//! Tests of slips and run sheets on examples.

#![tactic(auto)]

#[cfg(test)]
mod sheets;
