// Names of symbols, the words that no name may be, and the limits and refusals of all layers.
#![tactic(auto)]

pub mod limits;
pub mod name;
pub mod refusal;
pub mod words;
