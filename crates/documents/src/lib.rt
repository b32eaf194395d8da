// What programs share: an input is cut into documents, and each document is answered.
#![tactic(auto)]

pub mod answers;
pub mod document;
pub mod lines;
pub mod records;
pub mod searches;
