// What scoping finds at one place that is no aggregate: at a condition itself, at a binder, and in a term that is only searched.
#![tactic(auto)]

pub mod binders;
pub mod itself;
pub mod nested;
