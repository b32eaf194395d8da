// The checks of a chunk's tables: every bad one is refused by a number before anything is named.
#![tactic(auto)]

pub mod checked;
mod tables;
