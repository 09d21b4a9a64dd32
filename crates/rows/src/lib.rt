// Rows of facts: a row for each node, and what walks read of it.
#![tactic(auto)]

pub mod read;
pub mod row;
