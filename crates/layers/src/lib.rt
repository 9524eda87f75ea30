// The layers over one walk: its rows backward, and a part of them.
#![tactic(auto)]

pub mod part;
pub mod reverse;
