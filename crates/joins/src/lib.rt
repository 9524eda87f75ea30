// The joins: two walks made into one.
#![tactic(auto)]

pub mod fault;
pub mod join;
pub mod laws;
mod way;
