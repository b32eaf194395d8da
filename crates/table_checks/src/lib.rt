// The checks of a chunk's limits, format, modules and scopes.
#![tactic(auto)]

pub mod limits;
pub mod modules;
pub mod scopes;
