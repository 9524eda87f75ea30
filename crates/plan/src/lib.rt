// Reads a plan text: the names line, and one to three lines that each ask for a kind of walk; these are joined.
#![tactic(auto)]

pub mod field;
pub mod joining;
pub mod laws;
pub mod name;
pub mod number;
pub mod part;
mod parts;
pub mod read;
