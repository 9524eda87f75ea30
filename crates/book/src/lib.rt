// The book of one trial: which printer holds which row, which rows wait, and how many are done.
#![tactic(auto)]

pub mod book;
pub mod calls;
pub mod counts;
pub mod draw;
mod drawing;
pub mod lane;
pub mod laws;
pub mod ledger;
pub mod opening;
mod printers;
pub mod refusal;
