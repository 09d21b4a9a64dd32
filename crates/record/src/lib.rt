// The reader of records, and what it read by number.
#![tactic(auto)]

pub mod access;
pub mod reader;
