// The checks of scopes.
ghost use Rattle.std.specs.Prelude.{◌≡◌};
ghost use Rattle.std.specs.List.{flat_map};
ghost use Rattle.chunk_tables.specs.Lists.{first_found};
ghost use Rattle.chunk_tables.specs.View.{chunk_of, module_of, parent_of};
ghost use Rattle.chunk_faults.specs.ScopeRows.{scope_tests, parent_strays, parent_not_smaller, scope_misplaced};
ghost use Rattle.chunk_faults.specs.Tests.{least, told};
ghost use Rattle.chunk_faults.specs.Verdict.{scope_rows};

use chunk_tables::chunk::{Chunk, Module};
use chunk_tables::parts::Scope;
use names::refusal::Refusal;
use row_checks::numbers::is_scope;
use row_checks::rows::{check_rows, refuse_if};

fn parent_strays(module: &Module, number: usize, parent: u32) -> bool
    ensures { result ≡ parent_strays (module_of «module».now) number parent }
{
    number != 0 && !is_scope(module, parent)
}

fn parent_not_smaller(number: usize, parent: u32) -> bool
    ensures { result ≡ parent_not_smaller number parent }
{
    number != 0 && parent as usize >= number
}

fn is_misplaced(module: &Module, number: usize) -> bool
    ensures { result ≡ scope_misplaced (module_of «module».now) number }
{
    number != 0 && !module.kind.is_normal()
}

// Refuses the scope with the smallest number of a test that holds.
fn check_scope(module: &Module, number: usize, scope: &Scope) -> Result<(), Refusal>
    ensures { told result ≡ least (scope_tests (module_of «module».now) number (parent_of scope.now)) }
{
    refuse_if(
        parent_strays(module, number, scope.parent),
        Refusal::OutOfRange,
    )?;
    refuse_if(
        parent_not_smaller(number, scope.parent),
        Refusal::OutOfOrder,
    )?;
    refuse_if(is_misplaced(module, number), Refusal::Misplaced)
}

fn check_module_scopes(module: &Module) -> Result<(), Refusal>
    ensures { told result ≡ first_found least (scope_rows (module_of «module».now)) }
{
    check_rows(
        &module.scopes,
        |number, scope| check_scope(module, number, scope),
    )
}

/// Refuses the first scope whose parent is no scope of its module, or does not have a smaller number than its own: so every
/// walk outward ends at the root. An external module, of which nothing is printed here, has a root alone.
pub fn check_scopes(chunk: &Chunk) -> Result<(), Refusal>
    ensures { told result ≡ first_found least (flat_map scope_rows (chunk_of chunk.now).modules) }
{
    check_rows(&chunk.modules, |_, module| check_module_scopes(module))
}
