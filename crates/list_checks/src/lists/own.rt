// The lists of a module.
ghost use Rattle.std.specs.Prelude.{◌≡◌, map};
ghost use Rattle.chunk_tables.specs.Lists.{first_found};
ghost use Rattle.chunk_tables.specs.View.{chunk_of, module_of, unresolved_of};
ghost use Rattle.chunk_faults.specs.ListRows.{unresolved_tests, statement_tests, own_list_rows};
ghost use Rattle.chunk_faults.specs.Tests.{least, told};

use super::entries::{check_own_entries, has_missing};
use binding_index::indexed::IndexedModule;
use chunk_tables::chunk::{Chunk, Module};
use chunk_tables::parts::Unresolved;
use names::name::text::is_base;
use names::refusal::Refusal;
use row_checks::numbers::is_scope;
use row_checks::rows::{check_rows, refuse_if};
use std::alloc::Global;

// Refuses the name with the smallest number of a test that holds.
fn check_name(indexed: &IndexedModule<'_>, unresolved: &Unresolved) -> Result<(), Refusal>
    ensures { told result ≡ least (unresolved_tests (module_of indexed.now.module.now) (unresolved_of unresolved.now)) }
{
    let name = unresolved.name.as_slice();
    refuse_if(
        !is_scope(indexed.module, unresolved.scope),
        Refusal::OutOfRange,
    )?;
    let binding = indexed.nearest_binding(unresolved.scope, name);
    refuse_if(binding.is_some(), Refusal::BadReference)?;
    refuse_if(!is_base(name), Refusal::BadName)
}

fn check_unresolved(heap: Global, module: &Module) -> Result<(), Refusal>
    ensures { told result ≡ first_found least (map (unresolved_tests (module_of «module».now)) (module_of «module».now).unresolved) }
{
    let indexed = IndexedModule::new(heap, module);
    check_rows(
        &module.unresolved,
        |_, unresolved| check_name(&indexed, unresolved),
    )
}

fn check_statements(chunk: &Chunk, module: &Module) -> Result<(), Refusal>
    ensures { told result ≡ first_found least (map (statement_tests (chunk_of chunk.now)) (module_of «module».now).statements) }
{
    check_rows(
        &module.statements,
        |_, statement| refuse_if(has_missing(chunk, &statement.declared), Refusal::OutOfRange),
    )
}

#[tactic(auto, using(chunk_faults::proofs::Loops::over_append))]
pub(crate) fn check_module_lists(
    heap: Global,
    chunk: &Chunk,
    module: &Module,
) -> Result<(), Refusal>
    ensures { told result ≡ first_found least (own_list_rows (chunk_of chunk.now) (module_of «module».now)) }
{
    check_own_entries(module, &module.shims)?;
    check_own_entries(module, &module.named_imports)?;
    check_unresolved(heap, module)?;
    check_statements(chunk, module)
}
