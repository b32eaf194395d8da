// Entries that have one test, and lists of symbols.
ghost use Rattle.std.specs.Prelude.{◌≡◌, map};
ghost use Rattle.std.specs.List.{list_any};
ghost use Rattle.chunk_tables.specs.Lists.{first_found};
ghost use Rattle.chunk_tables.specs.View.{chunk_of, module_of};
ghost use Rattle.chunk_faults.specs.ListRows.{module_entry, own_entry, symbol_entry};
ghost use Rattle.chunk_faults.specs.Numbers.{missing};
ghost use Rattle.chunk_faults.specs.Tests.{least, told};

use chunk_tables::chunk::{Chunk, Module};
use keys::refs::SymbolRef;
use names::refusal::Refusal;
use row_checks::numbers::{is_missing, is_module, is_symbol};
use row_checks::rows::{check_rows, refuse_if};

// Entries that are modules.
pub(crate) fn check_module_entries(chunk: &Chunk, numbers: &[u32]) -> Result<(), Refusal>
    ensures { told result ≡ first_found least (map (module_entry (chunk_of chunk.now)) numbers.now) }
{
    check_rows(
        numbers,
        |_, number| refuse_if(!is_module(chunk, *number), Refusal::OutOfRange),
    )
}

// Entries that are symbols of the module whose list it is.
pub(crate) fn check_own_entries(module: &Module, numbers: &[u32]) -> Result<(), Refusal>
    ensures { told result ≡ first_found least (map (own_entry (module_of «module».now)) numbers.now) }
{
    check_rows(
        numbers,
        |_, number| refuse_if(!is_symbol(module, *number), Refusal::OutOfRange),
    )
}

// Entries that are symbols of the chunk.
pub(crate) fn check_symbol_entries(chunk: &Chunk, symbols: &[SymbolRef]) -> Result<(), Refusal>
    ensures { told result ≡ first_found least (map (symbol_entry (chunk_of chunk.now)) symbols.now) }
{
    check_rows(
        symbols,
        |_, symbol| refuse_if(is_missing(chunk, *symbol), Refusal::OutOfRange),
    )
}

// Whether a symbol of the list is missing.
pub(crate) fn has_missing(chunk: &Chunk, symbols: &[SymbolRef]) -> bool
    ensures { result ≡ list_any (missing (chunk_of chunk.now)) symbols.now }
{
    symbols.iter().any(|symbol| is_missing(chunk, *symbol))
}
