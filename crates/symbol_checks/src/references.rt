// The checks of references.
ghost use Rattle.std.specs.Prelude.{◌≡◌};
ghost use Rattle.std.specs.List.{flat_map};
ghost use Rattle.chunk_tables.specs.Lists.{first_found};
ghost use Rattle.chunk_tables.specs.View.{chunk_of, module_of, symbol_of};
ghost use Rattle.chunk_faults.specs.ReferenceRows.{reference_strays, misses_target, stray_member, bad_reference, reference_tests};
ghost use Rattle.chunk_faults.specs.Tests.{least, told};
ghost use Rattle.chunk_faults.specs.Verdict.{reference_rows};

use crate::ModuleCheck;
use crate::symbols::is_elsewhere;
use chunk_tables::chunk::{Chunk, Module};
use chunk_tables::parts::{Reference, Symbol};
use names::refusal::Refusal;
use row_checks::numbers::{dangles, is_scope, is_symbol};
use row_checks::rows::{check_rows, refuse_if};
use std::alloc::Global;

impl<'c, 'm> ModuleCheck<'c, 'm> {
    // Whether the reference names a row that there is not.
    fn reference_strays(&self, reference: &Reference) -> bool
        ensures { result ≡ reference_strays (chunk_of self.now.chunk.now) (module_of self.now.indexed.module.now) reference.now }
    {
        let module = self.indexed.module;
        !is_scope(module, reference.scope)
            || !is_symbol(module, reference.target)
            || dangles(self.chunk, reference.resolved)
    }

    // Whether a lookup of the target's name from the reference would not find the target.
    fn misses_target(&self, reference: &Reference, target: &Symbol) -> bool
        ensures { result ≡ misses_target (module_of self.now.indexed.module.now) reference.now (symbol_of target.now) }
    {
        !target.bound
            || self
                .indexed
                .nearest_binding(reference.scope, &target.name)
                .is_none_or(|nearest| reference.target as usize != nearest)
    }

    // Whether the reference is resolved to a member, and its target cannot have members to be resolved. Only an import has. In a
    // wrapped module it has to be printed elsewhere: were it printed inside the function, it could capture the member's name.
    fn is_stray_member(&self, reference: &Reference, target: &Symbol) -> bool
        ensures { result ≡ stray_member (module_of self.now.indexed.module.now) reference.now (symbol_of target.now) }
    {
        let module = self.indexed.module;
        reference.resolved.is_some()
            && (!module.is_root_named_import(reference.target as usize)
                || module.wrapped && !is_elsewhere(target))
    }

    // Whether the reference means something else than its scopes say.
    fn is_bad_reference(&self, reference: &Reference) -> bool
        ensures { result ≡ bad_reference (module_of self.now.indexed.module.now) reference.now }
    {
        // Not `is_some_and`: a closure over the index gets no contract.
        let Some(target) = self.indexed.module.symbol_at(reference.target as usize) else {
            return false;
        };
        self.misses_target(reference, target) || self.is_stray_member(reference, target)
    }

    // A number that leads nowhere comes before a meaning that is wrong.
    fn check_reference(&self, reference: &Reference) -> Result<(), Refusal>
        ensures { told result ≡ least (reference_tests (chunk_of self.now.chunk.now) (module_of self.now.indexed.module.now) reference.now) }
    {
        refuse_if(self.reference_strays(reference), Refusal::OutOfRange)?;
        refuse_if(self.is_bad_reference(reference), Refusal::BadReference)
    }
}

// Refuses the first faulty reference of the module.
fn check_module_references(heap: Global, chunk: &Chunk, module: &Module) -> Result<(), Refusal>
    ensures { told result ≡ first_found least (reference_rows (chunk_of chunk.now) (module_of «module».now)) }
{
    let check = ModuleCheck::new(heap, chunk, module);
    check_rows(
        &module.references,
        |_, reference| check.check_reference(reference),
    )
}

/// Checks each module's references, and refuses with the smallest number of the first faulty one. A reference has to be to
/// the symbol that its name means where it stands: in `let a; { let a; a; }` that is the inner `a`, and no choice of names
/// makes up for a table that says otherwise. The heap is for an index of each module's bindings; where there is no memory
/// for one the scopes are walked, and the answer is the same.
pub fn check_references(heap: Global, chunk: &Chunk) -> Result<(), Refusal>
    ensures { told result ≡ first_found least (flat_map (reference_rows (chunk_of chunk.now)) (chunk_of chunk.now).modules) }
{
    check_rows(
        &chunk.modules,
        |_, module| check_module_references(heap, chunk, module),
    )
}
