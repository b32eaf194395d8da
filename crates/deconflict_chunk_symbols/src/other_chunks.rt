// What the chunk reads from other chunks.
ghost use Rattle.std.specs.Prelude.{◌≡◌, flat_map, map};
ghost use Rattle.chunk_tables.specs.View.{other_of};
ghost use Rattle.renamer.specs.State.{chunk_in};
ghost use Rattle.deconflict_chunk_symbols.specs.Drawing.{Draws};
ghost use Rattle.deconflict_chunk_symbols.specs.Performing.{Performs};
ghost use Rattle.deconflict_chunk_symbols.specs.Run.{by_kind, import_calls};

use crate::calls::name_by_kind;
use keys::refs::SymbolRef;
use names::refusal::Refusal;
use renamer::renamer::Renamer;

fn name_imported(renamer: &mut Renamer<'_>, symbols: &[SymbolRef]) -> Result<(), Refusal>
    ensures { Performs renamer.old renamer.new result (flat_map (by_kind (chunk_in renamer.old)) symbols.now) }
{
    for symbol in symbols {
        name_by_kind(renamer, *symbol)?;
    }
    Ok(())
}

// What is imported is declared in this chunk too, by the import statements that are printed.
pub fn name_imports(renamer: &mut Renamer<'_>) -> Result<(), Refusal>
    ensures { Performs renamer.old renamer.new result (import_calls (chunk_in renamer.old)) }
{
    for other in &renamer.chunk().other_chunks {
        name_imported(renamer, &other.imports)?;
    }
    Ok(())
}

// A helper for each other chunk that has none.
pub fn create_require_names(renamer: &mut Renamer<'_>) -> Result<(), Refusal>
    ensures { Draws renamer.old renamer.new result }
{
    for place in 0..renamer.chunk().other_chunks.len() {
        renamer.create_require_name(place)?;
    }
    Ok(())
}
