// A hash table for every sort of key, over memory that a caller makes, and its listing in the order of keys.
#![tactic(auto)]

mod listing;
mod order;
pub mod slot;
pub mod table;
