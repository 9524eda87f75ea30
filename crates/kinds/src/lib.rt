// The kinds of walk that are made from numbers.
#![tactic(auto)]

pub mod kind;
mod levels;
mod multiset;
mod plain_changes;
mod radix;
mod ranges;
mod shape;
mod stretch;
mod sums;
mod tables;
mod tree;
mod ways;
