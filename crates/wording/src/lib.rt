// What a person is told of an entry, of a refusal and of an equality that ties nothing.
#![tactic(auto)]

pub mod counts;
pub mod phrases;
pub mod reasons;
pub mod refusals;
pub mod rules;
