// The records of a session that opens: the reserved names.
ghost use Rattle.std.specs.Prelude.{vec_len, MatchResult};
ghost use Rattle.chunk_tables.specs.View.{chunk_of};
ghost use Rattle.renamer.specs.Opening.{OpensRecords, Exceeds, Emptied};

use chunk_checks::checked::CheckedChunk;
use conflict_resolver::resolver::{ConflictResolver, RecordSlot};
use reservations::reserving::reserve_names;

// The memory of records, with nothing on record.
fn emptied(slots: Vec<RecordSlot>) -> Vec<RecordSlot>
    ensures { Emptied (vec_len slots) result.items }
{
    ConflictResolver::new(slots, 0).into_slots()
}

// A resolver with the reserved names on record, and no others; or, where they are more than may be on record, the memory,
// emptied. They are refused for nothing else, since the names of a checked chunk are bases.
pub fn open_records(
    slots: Vec<RecordSlot>,
    checked: &CheckedChunk,
) -> Result<ConflictResolver, Vec<RecordSlot>>
    ensures { MatchResult result (OpensRecords (chunk_of checked.now.chunk) (vec_len slots)) (λ emptied. Exceeds (chunk_of checked.now.chunk) (vec_len slots) × Emptied (vec_len slots) emptied.items) }
{
    let chunk = checked.chunk();
    let mut resolver = ConflictResolver::new(slots, chunk.records as usize);
    match reserve_names(&mut resolver, checked.format(), chunk) {
        Ok(()) => Ok(resolver),
        Err(_) => Err(emptied(resolver.into_slots())),
    }
}
