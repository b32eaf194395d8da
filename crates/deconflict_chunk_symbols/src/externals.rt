// The symbols of external modules.
ghost use Rattle.std.specs.Prelude.{◌≡◌, flat_map};
ghost use Rattle.chunk_tables.specs.View.{chunk_of};
ghost use Rattle.renamer.specs.State.{chunk_in};
ghost use Rattle.deconflict_chunk_symbols.specs.Performing.{Performs};
ghost use Rattle.deconflict_chunk_symbols.specs.Run.{is_esm, namespace_call, namespaces_of, all_namespaces, namespace_calls, is_used, symbols_of, used_call, used_of, used_calls};

use crate::calls::name;
use chunk_tables::chunk::Chunk;
use chunk_tables::format::Format;
use chunk_tables::kind::RootBindingKind;
use chunk_tables::parts::ModuleKind;
use keys::refs::SymbolRef;
use names::refusal::Refusal;
use renamer::renamer::Renamer;

fn is_esm(chunk: &Chunk) -> bool
    ensures { result ≡ is_esm (chunk_of chunk.now) }
{
    chunk.format == u8::from(Format::Esm)
}

// The namespace of a module, if it is external.
fn name_namespace(renamer: &mut Renamer<'_>, external: u32) -> Result<(), Refusal>
    ensures { Performs renamer.old renamer.new result (namespace_call (chunk_in renamer.old) external) }
{
    let Some(module) = renamer.chunk().module_at(external as usize) else {
        return Ok(());
    };
    match module.kind {
        ModuleKind::Normal => Ok(()),
        ModuleKind::External { namespace } => {
            let symbol = SymbolRef {
                owner: external,
                symbol: namespace,
            };
            name(renamer, symbol, RootBindingKind::Authored)
        }
    }
}

fn name_namespaces(renamer: &mut Renamer<'_>, externals: &[u32]) -> Result<(), Refusal>
    ensures { Performs renamer.old renamer.new result (namespaces_of (chunk_in renamer.old) externals.now) }
{
    for external in externals {
        name_namespace(renamer, *external)?;
    }
    Ok(())
}

fn name_all_namespaces(renamer: &mut Renamer<'_>) -> Result<(), Refusal>
    ensures { Performs renamer.old renamer.new result (all_namespaces (chunk_in renamer.old)) }
{
    let chunk = renamer.chunk();
    name_namespaces(renamer, &chunk.direct_externals)?;
    name_namespaces(renamer, &chunk.entry_externals)?;
    name_namespaces(renamer, &chunk.indirect_externals)
}

// Outside esm an external module is one value, its namespace.
pub fn name_external_namespaces(renamer: &mut Renamer<'_>) -> Result<(), Refusal>
    ensures { Performs renamer.old renamer.new result (namespace_calls (chunk_in renamer.old)) }
{
    if is_esm(renamer.chunk()) {
        Ok(())
    } else {
        name_all_namespaces(renamer)
    }
}

fn is_used(chunk: &Chunk, symbol: SymbolRef) -> bool
    ensures { result ≡ is_used (chunk_of chunk.now) symbol }
{
    chunk
        .used_external_symbols
        .iter()
        .any(|used| *used == symbol)
}

// How many symbols a module has.
fn symbol_count(renamer: &Renamer<'_>, owner: u32) -> u32
    ensures { result ≡ symbols_of (chunk_in renamer.now) owner }
{
    match renamer.chunk().module_at(owner as usize) {
        Some(module) => module.symbols.len() as u32,
        None => 0,
    }
}

fn name_used(renamer: &mut Renamer<'_>, owner: u32, symbol: u32) -> Result<(), Refusal>
    ensures { Performs renamer.old renamer.new result (used_call (chunk_in renamer.old) owner symbol) }
{
    let symbol = SymbolRef { owner, symbol };
    if is_used(renamer.chunk(), symbol) {
        name(renamer, symbol, RootBindingKind::Authored)
    } else {
        Ok(())
    }
}

// The used symbols of a module, by ascending number.
fn name_used_of(renamer: &mut Renamer<'_>, owner: u32) -> Result<(), Refusal>
    ensures { Performs renamer.old renamer.new result (used_of (chunk_in renamer.old) owner) }
{
    for symbol in 0..symbol_count(renamer, owner) {
        name_used(renamer, owner, symbol)?;
    }
    Ok(())
}

fn name_used_of_each(renamer: &mut Renamer<'_>) -> Result<(), Refusal>
    ensures { Performs renamer.old renamer.new result (flat_map (used_of (chunk_in renamer.old)) (chunk_in renamer.old).direct) }
{
    for external in &renamer.chunk().direct_externals {
        name_used_of(renamer, *external)?;
    }
    Ok(())
}

// Under esm what is imported from an external module is a symbol of that module.
pub fn name_used_external_symbols(renamer: &mut Renamer<'_>) -> Result<(), Refusal>
    ensures { Performs renamer.old renamer.new result (used_calls (chunk_in renamer.old)) }
{
    if is_esm(renamer.chunk()) {
        name_used_of_each(renamer)
    } else {
        Ok(())
    }
}
