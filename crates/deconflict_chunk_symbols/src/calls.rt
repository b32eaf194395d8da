// One naming call, as a step of the run: which name is answered does not matter here.
ghost use Rattle.std.specs.Prelude.{[], ◌∷◌};
ghost use Rattle.session_rules.specs.Calls.{root};
ghost use Rattle.renamer.specs.State.{chunk_in};
ghost use Rattle.deconflict_chunk_symbols.specs.Performing.{Performs};
ghost use Rattle.deconflict_chunk_symbols.specs.Run.{by_kind};

use chunk_tables::kind::RootBindingKind;
use keys::refs::SymbolRef;
use names::refusal::Refusal;
use renamer::renamer::Renamer;

pub fn name(
    renamer: &mut Renamer<'_>,
    symbol: SymbolRef,
    kind: RootBindingKind,
) -> Result<(), Refusal>
    ensures { Performs renamer.old renamer.new result (root symbol kind ∷ []) }
{
    renamer.add_symbol_in_root_scope(symbol, kind)?;
    Ok(())
}

// Names a symbol by the kind of its binding.
pub fn name_by_kind(renamer: &mut Renamer<'_>, symbol: SymbolRef) -> Result<(), Refusal>
    ensures { Performs renamer.old renamer.new result (by_kind (chunk_in renamer.old) symbol) }
{
    let kind = renamer.chunk().root_binding_kind(symbol);
    name(renamer, symbol, kind)
}
