// Text as programs read it: its lines, what stands on either side of a byte, and numbers.
#![tactic(auto)]

pub mod cut;
pub mod lines;
pub mod numeral;
