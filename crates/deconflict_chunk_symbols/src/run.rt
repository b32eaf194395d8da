// The run of a chunk: all its naming calls, in order.
ghost use Rattle.renamer.specs.State.{chunk_in};
ghost use Rattle.deconflict_chunk_symbols.specs.Drawing.{Runs};
ghost use Rattle.deconflict_chunk_symbols.specs.Performing.{Performs};
ghost use Rattle.deconflict_chunk_symbols.specs.Run.{entry_call, entry_calls, synthetic_calls};

use crate::calls::{name, name_by_kind};
use crate::externals::{name_external_namespaces, name_used_external_symbols};
use crate::modules::name_modules;
use crate::other_chunks::{create_require_names, name_imports};
use chunk_tables::chunk::EntrySymbol;
use chunk_tables::kind::RootBindingKind;
use names::refusal::Refusal;
use renamer::renamer::Renamer;

fn name_entry_symbol(renamer: &mut Renamer<'_>, entry: EntrySymbol) -> Result<(), Refusal>
    ensures { Performs renamer.old renamer.new result (entry_call (chunk_in renamer.old) entry) }
{
    if entry.came_from_cjs {
        Ok(())
    } else {
        name_by_kind(renamer, entry.symbol)
    }
}

// The symbols that the entry refers to.
fn name_entry_symbols(renamer: &mut Renamer<'_>) -> Result<(), Refusal>
    ensures { Performs renamer.old renamer.new result (entry_calls (chunk_in renamer.old)) }
{
    for entry in &renamer.chunk().entry_symbols {
        name_entry_symbol(renamer, *entry)?;
    }
    Ok(())
}

// The symbols of statements that the bundler makes.
fn name_synthetic_symbols(renamer: &mut Renamer<'_>) -> Result<(), Refusal>
    ensures { Performs renamer.old renamer.new result (synthetic_calls (chunk_in renamer.old)) }
{
    for symbol in &renamer.chunk().synthetic_symbols {
        name(renamer, *symbol, RootBindingKind::Synthesized)?;
    }
    Ok(())
}

/// Gives every symbol that the chunk prints at its top level its name, and every other chunk a helper. The order decides
/// who keeps a name: whoever comes first. The first refusal ends the run; what was given and drawn before it stays.
pub fn deconflict_chunk_symbols(renamer: &mut Renamer<'_>) -> Result<(), Refusal>
    ensures { Runs renamer.old renamer.new result }
{
    name_external_namespaces(renamer)?;
    name_entry_symbols(renamer)?;
    name_used_external_symbols(renamer)?;
    name_modules(renamer)?;
    name_synthetic_symbols(renamer)?;
    name_imports(renamer)?;
    create_require_names(renamer)
}
