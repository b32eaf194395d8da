// How a session opens.
ghost use Rattle.std.specs.Prelude.{◌≡◌, ◌≤◌, false, vec_len, MatchResult};
ghost use Rattle.std.specs.List.{All};
ghost use Rattle.chunk_tables.specs.Limits.{symbol_count};
ghost use Rattle.chunk_tables.specs.View.{chunk_of};
ghost use Rattle.policies.specs.Policies.{tables_of, room_for_names};
ghost use Rattle.session_memory.specs.Memory.{sizes_of};
ghost use Rattle.session_memory.specs.Sizes.{HasRoom};
ghost use Rattle.renamer.specs.Opened.{Opens, Refuses, OpensInRoom, RefusesRecords};

use super::Renamer;
use crate::opened_records::open_records;
use chunk_checks::checked::CheckedChunk;
use given_names::GivenNames;
use keyed_table::table::Table;
use names::refusal::Refusal;
use policies::chunk_policies::ChunkPolicies;
use session_memory::memory::{InnerNameSlot, Memory};

/// Why a session did not open, with the memory that was handed over. The tables are the caller's all the time.
#[derive(Drop)]
pub struct Refused {
    pub refusal: Refusal,
    pub memory: Memory,
}

// Marks no module. A mark that an earlier session left would count as a repaired module.
fn clear_marks(marks: &mut [bool])
    ensures { All (λ mark. mark ≡ false) marks.new }
{
    for mark in marks.iter_mut() {
        *mark = false;
    }
}

// The policies of a checked chunk, for whose inner names there is room.
fn open_policies(checked: &CheckedChunk, slots: Vec<InnerNameSlot>) -> ChunkPolicies<'_>
    requires { symbol_count (chunk_of checked.now.chunk) ≤ vec_len slots }
    ensures tables { tables_of result ≡ checked.now.chunk }
    ensures memory { room_for_names result ≡ vec_len slots }
{
    match ChunkPolicies::new(checked.chunk(), slots) {
        Ok(policies) => policies,
        Err(_) => unreachable(),
    }
}

impl<'a> Renamer<'a> {
    // In memory that is large enough for the tables.
    fn open_in_room(checked: &'a CheckedChunk, memory: Memory) -> Result<Renamer<'a>, Refused>
        requires { HasRoom (chunk_of checked.now.chunk) (sizes_of memory) }
        ensures { MatchResult result (OpensInRoom checked.now memory) (RefusesRecords checked.now memory) }
    {
        let Memory {
            records,
            names,
            inner,
            mut marks,
            helpers,
        } = memory;
        match open_records(records, checked) {
            Ok(resolver) => {
                clear_marks(&mut marks);
                Ok(Renamer {
                    chunk: checked,
                    policies: open_policies(checked, inner),
                    resolver,
                    canonical_names: GivenNames::new(names),
                    require_names: Table::new(helpers),
                    marks,
                })
            }
            Err(records) => Err(Refused {
                refusal: Refusal::NoFreeRecord,
                memory: Memory {
                    records,
                    names,
                    inner,
                    marks,
                    helpers,
                },
            }),
        }
    }

    /// Opens a session over the tables of a checked chunk, in the caller's memory: the reserved names go on record, and the
    /// set of inner names is filled. The memory need not be the one that the chunk was checked for, so it is asked once
    /// more whether it is large enough.
    pub fn open(checked: &'a CheckedChunk, memory: Memory) -> Result<Renamer<'a>, Refused>
        ensures { MatchResult result (Opens checked.now memory) (Refuses checked.now memory) }
    {
        if memory.sizes().is_too_small_for(checked.chunk()) {
            return Err(Refused {
                refusal: Refusal::OutsideLimit,
                memory,
            });
        }
        Renamer::open_in_room(checked, memory)
    }
}
