// Filling the set, and what it answers.
ghost use Rattle.std.specs.Prelude.{◌≡◌, ◌≤◌, true, is_ok, vec_len, MatchResult};
ghost use Rattle.names.specs.Refusals.{number_of};
ghost use Rattle.names.specs.Spelt.{spelt};
ghost use Rattle.keyed_table.specs.Links.{AllBlank};
ghost use Rattle.chunk_tables.specs.View.{chunk_of};
ghost use Rattle.chunk_tables.specs.Limits.{symbol_count};
ghost use Rattle.chunk_faults.specs.Sound.{Sound};
ghost use Rattle.policies.specs.InnerNames.{inner_name};
ghost use Rattle.policies.specs.Held.{slot_count, Refused};

use super::filling::note_chunk;
use super::{InnerBindingNames, InnerNamesRefused};
use chunk_tables::chunk::Chunk;
use keyed_table::table::Table;
use names::name::Name;
use session_memory::memory::InnerNameSlot;

impl<'a> InnerBindingNames<'a> {
    /// The set of the inner names of the chunk, over the slots, each of which is emptied. Where the names do not fit, the
    /// slots are given back, emptied. A slot for each symbol is enough for every chunk that its check grants.
    pub fn new(
        chunk: &'a Chunk,
        slots: Vec<InnerNameSlot>,
    ) -> Result<InnerBindingNames<'a>, InnerNamesRefused>
        ensures of_the_chunk { MatchResult result (λ s. s.chunk.now ≡ chunk.now) (λ r. Refused (chunk_of chunk.now) (vec_len slots) (number_of r.refusal)) }
        ensures memory { MatchResult result (λ s. slot_count s ≡ vec_len slots) (λ r. (vec_len r.slots ≡ vec_len slots) × AllBlank r.slots.items) }
        ensures room_for_a_sound_chunk { Sound (chunk_of chunk.now) → symbol_count (chunk_of chunk.now) ≤ vec_len slots → is_ok result ≡ true }
    {
        let mut table = Table::new(slots);
        match note_chunk(&mut table, chunk) {
            Ok(()) => Ok(InnerBindingNames {
                chunk,
                names: table,
            }),
            Err(refusal) => Err(InnerNamesRefused {
                refusal,
                slots: Table::new(table.into_slots()).into_slots(),
            }),
        }
    }

    /// The tables that it was filled from.
    pub fn chunk(&self) -> &'a Chunk
        ensures { result.now ≡ self.now.chunk.now }
    {
        self.chunk
    }

    /// Whether the name is an inner name of the chunk.
    pub fn contains(&self, name: &Name) -> bool
        ensures { result ≡ inner_name (chunk_of self.now.chunk.now) (spelt name.now) }
    {
        self.names.find(name).is_some()
    }

    /// Ends the set, and gives back its memory, as it is.
    pub fn into_slots(self) -> Vec<InnerNameSlot>
        ensures { result.items ≡ self.entry.names.memory }
    {
        let InnerBindingNames { names, .. } = self;
        names.into_slots()
    }
}
