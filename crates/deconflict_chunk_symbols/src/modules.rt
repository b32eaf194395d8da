// The symbols that chunk modules declare.
ghost use Rattle.std.specs.Prelude.{◌≡◌, flat_map, map, reverse};
ghost use Rattle.chunk_tables.specs.View.{module_of, statement_of};
ghost use Rattle.renamer.specs.State.{chunk_in};
ghost use Rattle.deconflict_chunk_symbols.specs.Performing.{Performs};
ghost use Rattle.deconflict_chunk_symbols.specs.Run.{own_call, this_call, printed_at_top, declared_call, statement_calls, module_calls, member_calls, members_calls};

use crate::calls::{name, name_by_kind};
use chunk_tables::chunk::Module;
use chunk_tables::kind::RootBindingKind;
use chunk_tables::parts::Statement;
use keys::refs::SymbolRef;
use names::refusal::Refusal;
use renamer::renamer::Renamer;

// A symbol that the bundler makes for the module, if there is one.
fn name_own(renamer: &mut Renamer<'_>, owner: u32, symbol: Option<u32>) -> Result<(), Refusal>
    ensures { Performs renamer.old renamer.new result (own_call owner symbol) }
{
    match symbol {
        Some(symbol) => name(
            renamer,
            SymbolRef { owner, symbol },
            RootBindingKind::Synthesized,
        ),
        None => Ok(()),
    }
}

// The parameter that stands for `this` in the function around a wrapped module. It is named like a top-level binding, so
// that nothing else has its name.
fn name_this(renamer: &mut Renamer<'_>, owner: u32, of: &Module) -> Result<(), Refusal>
    ensures { Performs renamer.old renamer.new result (this_call owner (module_of of.now)) }
{
    if of.wrapped {
        name_own(renamer, owner, of.cjs_this)
    } else {
        Ok(())
    }
}

// Whether a symbol with this canonical one is printed at the top level for its statement in the module: it is the
// module's own. Inside of a wrapped module only facades and imports from external modules are printed there.
fn is_printed_at_top(owner: u32, of: &Module, statement: &Statement, canonical: SymbolRef) -> bool
    ensures { result ≡ printed_at_top owner (module_of of.now) (statement_of statement.now) canonical }
{
    canonical.owner == owner
        && (!of.wrapped
            || of.is_facade_symbol(canonical.symbol as usize)
            || statement.external_import)
}

fn name_declared(
    renamer: &mut Renamer<'_>,
    owner: u32,
    of: &Module,
    statement: &Statement,
    symbol: SymbolRef,
) -> Result<(), Refusal>
    ensures { Performs renamer.old renamer.new result (declared_call (chunk_in renamer.old) owner (module_of of.now) (statement_of statement.now) symbol) }
{
    let canonical = renamer.chunk().canonical_ref_for(symbol);
    if is_printed_at_top(owner, of, statement, canonical) {
        name_by_kind(renamer, symbol)
    } else {
        Ok(())
    }
}

// What a statement declares, if it is kept.
fn name_statement(
    renamer: &mut Renamer<'_>,
    owner: u32,
    of: &Module,
    statement: &Statement,
) -> Result<(), Refusal>
    ensures { Performs renamer.old renamer.new result (statement_calls (chunk_in renamer.old) owner (module_of of.now) (statement_of statement.now)) }
{
    if !statement.kept {
        return Ok(());
    }
    for symbol in &statement.declared {
        name_declared(renamer, owner, of, statement, *symbol)?;
    }
    Ok(())
}

fn name_statements(renamer: &mut Renamer<'_>, owner: u32, of: &Module) -> Result<(), Refusal>
    ensures { Performs renamer.old renamer.new result (flat_map (statement_calls (chunk_in renamer.old) owner (module_of of.now)) (module_of of.now).statements) }
{
    for statement in &of.statements {
        name_statement(renamer, owner, of, statement)?;
    }
    Ok(())
}

fn name_in_module(renamer: &mut Renamer<'_>, owner: u32, of: &Module) -> Result<(), Refusal>
    ensures { Performs renamer.old renamer.new result (module_calls (chunk_in renamer.old) owner (module_of of.now)) }
{
    name_own(renamer, owner, of.hmr_hot)?;
    name_this(renamer, owner, of)?;
    name_statements(renamer, owner, of)
}

fn name_module(renamer: &mut Renamer<'_>, number: u32) -> Result<(), Refusal>
    ensures { Performs renamer.old renamer.new result (member_calls (chunk_in renamer.old) number) }
{
    match renamer.chunk().module_at(number as usize) {
        Some(of) => name_in_module(renamer, number, of),
        None => Ok(()),
    }
}

// Last to first, so that the entry, which runs last, keeps its names.
pub fn name_modules(renamer: &mut Renamer<'_>) -> Result<(), Refusal>
    ensures { Performs renamer.old renamer.new result (members_calls (chunk_in renamer.old)) }
{
    for number in renamer.chunk().chunk_modules.iter().rev() {
        name_module(renamer, *number)?;
    }
    Ok(())
}
