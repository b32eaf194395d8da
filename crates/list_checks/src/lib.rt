// The checks of lists.
#![tactic(auto)]

pub mod lists;
