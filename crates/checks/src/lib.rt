// The checks of a condition, in the Rust's names.
#![tactic(auto)]

pub mod arith;
pub mod closed;
