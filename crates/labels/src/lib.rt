// What stands at a node of a record, in words.
#![tactic(auto)]

pub mod children;
mod operators;
pub mod text;
