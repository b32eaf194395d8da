// A session that gives names to the symbols of a chunk. It is open, and gives names at the top level; then it repairs the
// modules of the chunk. Each of these states is a type with its own calls.
#![tactic(auto)]

pub mod nested_scopes;
mod opened_records;
pub mod renamer;
