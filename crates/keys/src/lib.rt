// What a keyed table asks of its keys, the keys there are, and the check that keys ascend.
#![tactic(auto)]

pub mod ascend;
pub mod binding_key;
pub mod key;
mod mixing;
pub mod name_key;
pub mod refs;
