// The policies of a session over a chunk.
use crate::inner_names::InnerBindingNames;

pub mod asked;

/// What a session asks for the policy of a search. How inner names are told is known here alone.
#[derive(Drop)]
pub struct ChunkPolicies<'a> {
    inner_binding_names: InnerBindingNames<'a>,
}
