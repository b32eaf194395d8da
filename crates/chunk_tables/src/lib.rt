// The tables of a chunk, as a bundler hands them over, and what can be read off them before any name is given.
#![tactic(auto)]

pub mod bindings;
pub mod chunk;
pub mod fixed;
pub mod format;
pub mod kind;
pub mod limits;
pub mod links;
pub mod parts;
pub mod scopes;
pub mod totals;
