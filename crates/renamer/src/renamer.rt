// An open session.
ghost use Rattle.std.specs.Prelude.{◌≡◌, ◌≤◌, length};
ghost use Rattle.std.specs.List.{All};
ghost use Rattle.keyed_table.specs.Contents.{room as places};
ghost use Rattle.keyed_table.specs.Model.{Distinct};
ghost use Rattle.chunk_tables.specs.Limits.{symbol_count};
ghost use Rattle.chunk_tables.specs.View.{chunk_of};
ghost use Rattle.conflict_resolver.specs.Held.{held, room};
ghost use Rattle.given_names.specs.Held.{given_in, room_for, OfChunk};
ghost use Rattle.policies.specs.Policies.{tables_of};
ghost use Rattle.session_rules.specs.Laws.{Opened};
ghost use Rattle.session_rules.specs.Session.{session};
ghost use Rattle.renamer.specs.Helpers.{OfOthers};

use chunk_checks::checked::CheckedChunk;
use conflict_resolver::resolver::ConflictResolver;
use given_names::GivenNames;
use keyed_table::table::Table;
use keys::refs::ChunkIdx;
use names::name::Name;
use policies::chunk_policies::ChunkPolicies;

pub mod ending;
pub mod helpers;
pub mod naming;
pub mod opening;
pub mod reading;

/// An open session: names are given at the top level of the chunk, and drawn for helpers and for callers. The tables are
/// the caller's and are only lent, as a session changes nothing of them; the memory is the session's until it ends.
#[derive(Drop)]
pub struct Renamer<'a> {
    chunk: &'a CheckedChunk,
    policies: ChunkPolicies<'a>,
    resolver: ConflictResolver,
    canonical_names: GivenNames,
    require_names: Table<ChunkIdx, Name>,
    // Which modules are repaired.
    marks: Vec<bool>,
    ghost of_the_chunk: { tables_of policies ≡ chunk.now.chunk },
    // As many names may be on record as the chunk says.
    ghost limit: { room resolver ≡ (chunk_of chunk.now.chunk).records },
    // The given names are those of the chunk's symbols, and there is room for all.
    ghost symbols: { OfChunk (chunk_of chunk.now.chunk) (given_in canonical_names) },
    ghost space: { symbol_count (chunk_of chunk.now.chunk) ≤ room_for canonical_names },
    ghost opened: { ∥ Opened (chunk_of chunk.now.chunk) (session (held resolver) (given_in canonical_names)) ∥₁ },
    // The helpers are those of other chunks, one for each at most, and there is room for all.
    ghost others: { OfOthers (chunk_of chunk.now.chunk) require_names.entries },
    ghost once: { Distinct require_names.entries },
    ghost room_for_others: { length (chunk_of chunk.now.chunk).others ≤ places require_names },
}
