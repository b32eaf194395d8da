// Chunks as text: a reader of the lines that describe a chunk, and the law that what is written is read again.
#![tactic(auto)]

mod chunk_lines;
mod chunk_rows;
pub mod document;
mod draft;
pub mod fault;
pub mod laws;
mod module_lines;
mod rows;
mod verbs;
pub mod words;
