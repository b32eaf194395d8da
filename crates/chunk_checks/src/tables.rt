// The checks of all tables, in their order.
ghost use Rattle.std.specs.Prelude.{◌≡◌, false};
ghost use Rattle.chunk_tables.specs.View.{chunk_of};
ghost use Rattle.chunk_faults.specs.Tests.{told};
ghost use Rattle.chunk_faults.specs.Verdict.{verdict};
ghost use Rattle.session_memory.specs.Sizes.{too_small};

use chunk_tables::chunk::Chunk;
use list_checks::lists::check_lists;
use names::refusal::Refusal;
use row_checks::rows::refuse_if;
use session_memory::sizes::MemorySizes;
use std::alloc::Global;
use symbol_checks::references::check_references;
use symbol_checks::symbols::check_symbols;
use table_checks::limits::check_limits;
use table_checks::modules::{check_format, check_modules};
use table_checks::scopes::check_scopes;

// The tables, one after another.
fn check_tables(heap: Global, chunk: &Chunk) -> Result<(), Refusal>
    ensures { told result ≡ verdict (chunk_of chunk.now) false }
{
    check_limits(chunk)?;
    check_format(chunk)?;
    check_modules(chunk)?;
    check_scopes(chunk)?;
    check_symbols(heap, chunk)?;
    check_references(heap, chunk)?;
    check_lists(heap, chunk)
}

// The memory, and then the tables. Memory that is too small has the number of the first table's faults, so that no fault
// of the tables can come before it.
pub(crate) fn check_chunk(heap: Global, chunk: &Chunk, sizes: &MemorySizes) -> Result<(), Refusal>
    ensures { told result ≡ verdict (chunk_of chunk.now) (too_small (chunk_of chunk.now) sizes.now) }
{
    refuse_if(sizes.is_too_small_for(chunk), Refusal::OutsideLimit)?;
    check_tables(heap, chunk)
}
