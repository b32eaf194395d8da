// How the set is filled: symbol by symbol, module by module.
ghost use Rattle.std.specs.Prelude.{◌≡◌};
ghost use Rattle.keyed_table.specs.Contents.{room};
ghost use Rattle.chunk_tables.specs.View.{chunk_of, module_of, symbol_of};
ghost use Rattle.policies.specs.InnerNames.{is_inner_name, symbol_names, module_names, member_names, inner_names};
ghost use Rattle.policies.specs.Sets.{Puts};

use chunk_tables::chunk::{Chunk, Module};
use chunk_tables::parts::Symbol;
use keyed_table::table::Table;
use names::name::Name;
use names::refusal::Refusal;

// Whether the symbol stands outside the root, or is bound and its module is wrapped. Facades are created in a root, but
// never bound there.
fn is_inner_name(module: &Module, symbol: &Symbol) -> bool
    ensures { result ≡ is_inner_name (module_of «module».now) (symbol_of symbol.now) }
{
    symbol.scope != 0 || symbol.bound && module.wrapped
}

// Notes the name of the symbol, if it is an inner one.
fn note_symbol(names: &mut Table<Name, ()>, module: &Module, symbol: &Symbol) -> Result<(), Refusal>
    ensures names { Puts result (symbol_names (module_of «module».now) (symbol_of symbol.now)) names.old names.new }
    ensures room { room names.new ≡ room names.old }
{
    if !is_inner_name(module, symbol) {
        return Ok(());
    }
    let name = Name::new(symbol.name.as_slice())?;
    names.insert(name, ())
}

// Notes the inner names of the module.
fn note_module(names: &mut Table<Name, ()>, module: &Module) -> Result<(), Refusal>
    ensures names { Puts result (module_names (module_of «module».now)) names.old names.new }
    ensures room { room names.new ≡ room names.old }
{
    for symbol in &module.symbols {
        note_symbol(names, module, symbol)?;
    }
    Ok(())
}

// Notes the inner names of the module of this number, if there is one.
fn note_member(names: &mut Table<Name, ()>, chunk: &Chunk, number: u32) -> Result<(), Refusal>
    ensures names { Puts result (member_names (chunk_of chunk.now) number) names.old names.new }
    ensures room { room names.new ≡ room names.old }
{
    match chunk.module_at(number as usize) {
        Some(module) => note_module(names, module),
        None => Ok(()),
    }
}

// Notes the inner names of the chunk.
pub(crate) fn note_chunk(names: &mut Table<Name, ()>, chunk: &Chunk) -> Result<(), Refusal>
    ensures names { Puts result (inner_names (chunk_of chunk.now)) names.old names.new }
    ensures room { room names.new ≡ room names.old }
{
    for number in &chunk.chunk_modules {
        note_member(names, chunk, *number)?;
    }
    Ok(())
}
