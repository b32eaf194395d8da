// Numbers that name a row of a table, or none.
ghost use Rattle.std.specs.Prelude.{◌≡◌};
ghost use Rattle.chunk_tables.specs.View.{chunk_of, module_of};
ghost use Rattle.chunk_faults.specs.Numbers.{is_module, is_scope, is_symbol, strays, missing, dangles};

use chunk_tables::chunk::{Chunk, Module};
use keys::refs::SymbolRef;

/// Whether a module has this number. Tables name rows by number and can be filled by anyone, so each number is looked at before
/// it is used. There is a function for each sort of row: one over any table would ask for the table in place of its owner.
pub fn is_module(chunk: &Chunk, number: u32) -> bool
    ensures { result ≡ is_module (chunk_of chunk.now) number }
{
    (number as usize) < chunk.modules.len()
}

/// Whether a scope of the module has this number.
pub fn is_scope(module: &Module, number: u32) -> bool
    ensures { result ≡ is_scope (module_of «module».now) number }
{
    (number as usize) < module.scopes.len()
}

/// Whether a symbol of the module has this number.
pub fn is_symbol(module: &Module, number: u32) -> bool
    ensures { result ≡ is_symbol (module_of «module».now) number }
{
    (number as usize) < module.symbols.len()
}

/// Whether a number is given and no symbol of the module has it. A module without, say, a default export gives none, and that is
/// right.
pub fn strays(module: &Module, number: Option<u32>) -> bool
    ensures { result ≡ strays (module_of «module».now) number }
{
    number.is_some_and(|symbol| !is_symbol(module, symbol))
}

/// Whether no module has the symbol.
pub fn is_missing(chunk: &Chunk, symbol: SymbolRef) -> bool
    ensures { result ≡ missing (chunk_of chunk.now) symbol }
{
    chunk.symbol_at(symbol).is_none()
}

/// Whether a symbol is given that no module has. Most symbols have neither link nor alias, and that is right.
pub fn dangles(chunk: &Chunk, symbol: Option<SymbolRef>) -> bool
    ensures { result ≡ dangles (chunk_of chunk.now) symbol }
{
    symbol.is_some_and(|symbol| is_missing(chunk, symbol))
}
