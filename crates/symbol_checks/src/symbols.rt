// The checks of symbols.
ghost use Rattle.std.specs.Prelude.{◌≡◌, not, ◌&&◌, is_some};
ghost use Rattle.std.specs.List.{flat_map};
ghost use Rattle.chunk_tables.specs.Links.{alias_of, canonical};
ghost use Rattle.chunk_tables.specs.Lists.{first_found};
ghost use Rattle.chunk_tables.specs.View.{chunk_of, module_of, symbol_of};
ghost use Rattle.chunk_faults.specs.SymbolRows.{symbol_strays, clashes, misplaced, endless, circles, doubly_aliased, elsewhere, stray_import, symbol_tests};
ghost use Rattle.chunk_faults.specs.Tests.{least, told};
ghost use Rattle.chunk_faults.specs.Verdict.{symbol_rows};

use crate::ModuleCheck;
use chunk_tables::bindings::Bindings;
use chunk_tables::chunk::{Chunk, Module};
use chunk_tables::parts::Symbol;
use keys::refs::SymbolRef;
use names::name::text::is_base;
use names::refusal::Refusal;
use row_checks::numbers::{dangles, is_scope};
use row_checks::rows::{check_rows, refuse_if};
use std::alloc::Global;

// Whether the symbol is a variable that is printed as a property of another. Where its links go in a circle that is refused at
// the circle, and not here.
fn leads_to_alias(chunk: &Chunk, symbol: SymbolRef) -> bool
    ensures { result ≡ (not (endless (chunk_of chunk.now) symbol) && is_some (alias_of (chunk_of chunk.now) (canonical (chunk_of chunk.now) symbol))) }
{
    let end = chunk.canonical_ref_for(symbol);
    chunk.link_of(end).is_none() && chunk.alias_of(end).is_some()
}

impl<'c, 'm> ModuleCheck<'c, 'm> {
    // Whether the symbol names a row that there is not.
    fn symbol_strays(&self, symbol: &Symbol) -> bool
        ensures { result ≡ symbol_strays (chunk_of self.now.chunk.now) (module_of self.now.indexed.module.now) (symbol_of symbol.now) }
    {
        !is_scope(self.indexed.module, symbol.scope)
            || dangles(self.chunk, symbol.link)
            || dangles(self.chunk, symbol.alias)
    }

    // Whether the scope has bound the name to an earlier symbol. A source cannot do that: `var now; var now` is one binding, and
    // `let now; let now` an error. With two it would be open which of them a reference means.
    fn is_clash(&self, number: usize, symbol: &Symbol) -> bool
        ensures { result ≡ clashes (module_of self.now.indexed.module.now) number (symbol_of symbol.now) }
    {
        symbol.bound
            && self
                .indexed
                .get_binding(symbol.scope, &symbol.name)
                .is_some_and(|first| first < number)
    }

    // Whether the symbol stands where none of its sort can. An external module has no source to declare anything, and a facade is
    // printed at the top level, so it belongs to no function or block.
    fn is_misplaced(&self, symbol: &Symbol) -> bool
        ensures { result ≡ misplaced (module_of self.now.indexed.module.now) (symbol_of symbol.now) }
    {
        if symbol.bound {
            !self.indexed.module.kind.is_normal()
        } else {
            symbol.scope != 0
        }
    }

    // Whether following links from the symbol leads round in a circle, so that no symbol is the one that is declared.
    fn is_circle(&self, symbol: &Symbol) -> bool
        ensures { result ≡ circles (chunk_of self.now.chunk.now) (symbol_of symbol.now) }
    {
        let chunk = self.chunk;
        symbol
            .link
            .is_some_and(|link| chunk.link_of(chunk.end_after(link)).is_some())
    }

    // Whether the symbol is printed as a property of what is itself printed as a property. Names are given to variables, so one
    // step has to lead to one.
    fn is_doubly_aliased(&self, symbol: &Symbol) -> bool
        ensures { result ≡ doubly_aliased (chunk_of self.now.chunk.now) (symbol_of symbol.now) }
    {
        let chunk = self.chunk;
        symbol
            .alias
            .is_some_and(|alias| leads_to_alias(chunk, alias))
    }

    // Whether a declaration of the module is printed as another variable without being an import. In
    //
    //     const now = 1;
    //
    // `now` is nobody else's; were it linked, its name would be given for another module's sake.
    fn is_stray_import(&self, number: usize, symbol: &Symbol) -> bool
        ensures { result ≡ stray_import (module_of self.now.indexed.module.now) number (symbol_of symbol.now) }
    {
        symbol.bound && is_elsewhere(symbol) && !self.indexed.module.is_root_named_import(number)
    }

    // The tests in the order of their numbers.
    fn check_symbol(&self, number: usize, symbol: &Symbol) -> Result<(), Refusal>
        ensures { told result ≡ least (symbol_tests (chunk_of self.now.chunk.now) (module_of self.now.indexed.module.now) number (symbol_of symbol.now)) }
    {
        refuse_if(self.symbol_strays(symbol), Refusal::OutOfRange)?;
        let misplaced = self.is_clash(number, symbol) || self.is_misplaced(symbol);
        refuse_if(misplaced, Refusal::Misplaced)?;
        let bad_link = self.is_circle(symbol)
            || self.is_doubly_aliased(symbol)
            || self.is_stray_import(number, symbol);
        refuse_if(bad_link, Refusal::BadLink)?;
        refuse_if(!is_base(&symbol.name), Refusal::BadName)
    }
}

// Whether the symbol is printed by another's name.
pub(crate) fn is_elsewhere(symbol: &Symbol) -> bool
    ensures { result ≡ elsewhere (symbol_of symbol.now) }
{
    symbol.link.is_some() || symbol.alias.is_some()
}

// Refuses the first faulty symbol of the module.
fn check_module_symbols(heap: Global, chunk: &Chunk, module: &Module) -> Result<(), Refusal>
    ensures { told result ≡ first_found least (symbol_rows (chunk_of chunk.now) (module_of «module».now)) }
{
    let check = ModuleCheck::new(heap, chunk, module);
    check_rows(
        &module.symbols,
        |number, symbol| check.check_symbol(number, symbol),
    )
}

/// Checks each module's symbols, and refuses with the smallest number of the first faulty one. Names go by scopes, links
/// and aliases, so these have to be unambiguous: after `let a; let a;` nothing tells which `a` is meant, and links in a
/// circle have no end to take a name from. The heap is for an index of each module's bindings; where there is no memory for
/// one the scopes are walked, and the answer is the same.
pub fn check_symbols(heap: Global, chunk: &Chunk) -> Result<(), Refusal>
    ensures { told result ≡ first_found least (flat_map (symbol_rows (chunk_of chunk.now)) (chunk_of chunk.now).modules) }
{
    check_rows(
        &chunk.modules,
        |_, module| check_module_symbols(heap, chunk, module),
    )
}
