// Making the policies of a chunk, and asking for one.
ghost use Rattle.std.specs.Prelude.{◌≡◌, ◌≤◌, true, is_ok, vec_len, MatchResult};
ghost use Rattle.names.specs.Refusals.{number_of};
ghost use Rattle.keyed_table.specs.Links.{AllBlank};
ghost use Rattle.chunk_tables.specs.View.{chunk_of};
ghost use Rattle.chunk_tables.specs.Limits.{symbol_count};
ghost use Rattle.chunk_faults.specs.Sound.{Sound};
ghost use Rattle.policies.specs.Held.{Refused};
ghost use Rattle.policies.specs.Policies.{tables_of, memory_of, room_for_names};

use super::ChunkPolicies;
use crate::file_policy::FilePolicy;
use crate::inner_names::{InnerBindingNames, InnerNamesRefused};
use crate::own_module::OwnModule;
use chunk_tables::chunk::Chunk;
use session_memory::memory::InnerNameSlot;

impl<'a> ChunkPolicies<'a> {
    /// The policies of the chunk, over the slots, each of which is emptied. A slot for each symbol is enough for every
    /// chunk that its check grants; where the inner names do not fit, the slots are given back, emptied.
    pub fn new(
        chunk: &'a Chunk,
        slots: Vec<InnerNameSlot>,
    ) -> Result<ChunkPolicies<'a>, InnerNamesRefused>
        ensures of_the_chunk { MatchResult result (λ p. tables_of p ≡ chunk.now) (λ r. Refused (chunk_of chunk.now) (vec_len slots) (number_of r.refusal)) }
        ensures memory { MatchResult result (λ p. room_for_names p ≡ vec_len slots) (λ r. (vec_len r.slots ≡ vec_len slots) × AllBlank r.slots.items) }
        ensures room_for_a_sound_chunk { Sound (chunk_of chunk.now) → symbol_count (chunk_of chunk.now) ≤ vec_len slots → is_ok result ≡ true }
    {
        let inner_binding_names = InnerBindingNames::new(chunk, slots)?;
        Ok(ChunkPolicies {
            inner_binding_names,
        })
    }

    /// The policy of an authored symbol of a module.
    pub fn own_module(&self, owner: u32) -> OwnModule<'a>
        ensures { (result.chunk.now ≡ tables_of self.now) × (result.owner ≡ owner) }
    {
        OwnModule::new(self.inner_binding_names.chunk(), owner)
    }

    /// The policy of synthesized symbols and of helpers.
    pub fn file(&self) -> FilePolicy<'_, 'a>
        ensures { result.names.now.chunk.now ≡ tables_of self.now }
    {
        FilePolicy::new(&self.inner_binding_names)
    }

    /// Ends them, and gives back the memory, as it is.
    pub fn into_slots(self) -> Vec<InnerNameSlot>
        ensures { result.items ≡ memory_of self.entry }
    {
        let ChunkPolicies {
            inner_binding_names,
        } = self;
        inner_binding_names.into_slots()
    }
}
