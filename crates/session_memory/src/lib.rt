// The memory of a session: how much of it a chunk needs, and how it is made.
#![tactic(auto)]

pub mod memory;
pub mod sizes;
