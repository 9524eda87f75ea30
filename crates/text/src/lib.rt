// Texts: cut into pieces, read as numbers, and words that name something.
#![tactic(auto)]

pub mod digits;
pub mod laws;
pub mod named;
pub mod pieces;
