// The head of a record, and the end record.
#![tactic(auto)]

pub mod ends;
pub mod heads;
