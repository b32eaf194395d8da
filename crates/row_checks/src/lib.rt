// What the checks of all tables are made of: going over rows, and whether a number names a row.
#![tactic(auto)]

pub mod numbers;
pub mod rows;
