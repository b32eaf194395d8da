// A module with an index of its bindings: the same answers as its own walk, without going through all symbols each time.
#![tactic(auto)]

mod build;
pub mod indexed;
