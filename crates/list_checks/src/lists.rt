// The lists of a chunk and of its modules, checked one after another.
ghost use Rattle.std.specs.Prelude.{◌≡◌, map};
ghost use Rattle.std.specs.List.{flat_map};
ghost use Rattle.chunk_tables.specs.Lists.{first_found};
ghost use Rattle.chunk_tables.specs.View.{chunk_of};
ghost use Rattle.chunk_faults.specs.ListRows.{name_tests, member_tests, entry_tests, other_tests, own_list_rows, run_lists, list_rows};
ghost use Rattle.chunk_faults.specs.Tests.{least, told, each_row};

use chunk_tables::chunk::Chunk;
use names::name::text::is_base;
use names::refusal::Refusal;
use row_checks::numbers::is_missing;
use row_checks::rows::{check_rows, refuse_if};
use std::alloc::Global;

mod entries;
mod members;
mod others;
mod own;

use entries::{check_module_entries, check_symbol_entries};
use members::check_member;
use others::check_other;
use own::check_module_lists;

fn check_globals(chunk: &Chunk) -> Result<(), Refusal>
    ensures { told result ≡ first_found least (map name_tests (chunk_of chunk.now).globals) }
{
    check_rows(
        &chunk.globals,
        |_, name| refuse_if(!is_base(name), Refusal::BadName),
    )
}

fn check_members(chunk: &Chunk) -> Result<(), Refusal>
    ensures { told result ≡ first_found least (each_row (member_tests (chunk_of chunk.now)) (chunk_of chunk.now).members) }
{
    check_rows(
        &chunk.chunk_modules,
        |place, member| check_member(chunk, place, *member),
    )
}

fn check_own_lists(heap: Global, chunk: &Chunk) -> Result<(), Refusal>
    ensures { told result ≡ first_found least (flat_map (own_list_rows (chunk_of chunk.now)) (chunk_of chunk.now).modules) }
{
    check_rows(
        &chunk.modules,
        |_, module| check_module_lists(heap, chunk, module),
    )
}

fn check_entry_symbols(chunk: &Chunk) -> Result<(), Refusal>
    ensures { told result ≡ first_found least (map (entry_tests (chunk_of chunk.now)) (chunk_of chunk.now).entry) }
{
    check_rows(
        &chunk.entry_symbols,
        |_, entry| refuse_if(is_missing(chunk, entry.symbol), Refusal::OutOfRange),
    )
}

fn check_others(chunk: &Chunk) -> Result<(), Refusal>
    ensures { told result ≡ first_found least (each_row (other_tests (chunk_of chunk.now)) (chunk_of chunk.now).others) }
{
    check_rows(
        &chunk.other_chunks,
        |place, other| check_other(chunk, place, other),
    )
}

// The lists that the run goes through, in its order.
#[tactic(auto, using(chunk_faults::proofs::Loops::over_append))]
fn check_run_lists(chunk: &Chunk) -> Result<(), Refusal>
    ensures { told result ≡ first_found least (flat_map (λ rows. rows) (run_lists (chunk_of chunk.now))) }
{
    check_module_entries(chunk, &chunk.direct_externals)?;
    check_module_entries(chunk, &chunk.entry_externals)?;
    check_module_entries(chunk, &chunk.indirect_externals)?;
    check_entry_symbols(chunk)?;
    check_symbol_entries(chunk, &chunk.used_external_symbols)?;
    check_symbol_entries(chunk, &chunk.synthetic_symbols)?;
    check_others(chunk)
}

/// Checks the lists of the chunk and of its modules, and refuses with the smallest number of the first faulty entry. Symbols
/// are named in the order of these lists: a missing symbol would be passed over without a word, and with the chunk modules
/// in another order than they run, bare names would go to other symbols. The heap is for an index of each module's bindings,
/// by which unresolved names are looked up; where there is no memory for one the scopes are walked.
#[tactic(auto, using(chunk_faults::proofs::Loops::over_append))]
pub fn check_lists(heap: Global, chunk: &Chunk) -> Result<(), Refusal>
    ensures { told result ≡ first_found least (list_rows (chunk_of chunk.now)) }
{
    check_globals(chunk)?;
    check_members(chunk)?;
    check_own_lists(heap, chunk)?;
    check_run_lists(chunk)
}
