// The naming calls of a whole chunk, in the order of the Rust's function of this name.
#![tactic(auto)]

mod calls;
mod externals;
mod modules;
mod other_chunks;
pub mod run;
