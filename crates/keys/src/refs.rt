// Symbols and chunks by their numbers, and these as keys.
ghost use Rattle.keys.specs.Refs.{symbol_hash, symbol_under, chunk_hash, chunk_under};
ghost use Rattle.keys.specs.NumberOrder.{symbol_order, chunk_order};
ghost use Rattle.std.proofs.Common.{rules};

use crate::key::{HashKey, OrderedKey};
use crate::mixing::mix;

/// A symbol by two numbers: those of the module that owns it, and its own there. A module numbers its symbols for itself, so
/// neither number alone tells a symbol. Symbols are ordered by module first, and so a listing goes module by module.
#[derive(Clone, Copy, Default, Debug, PartialEq, Eq, PartialOrd, Ord)]
pub struct SymbolRef {
    /// The number of the module, among all that are known.
    pub owner: u32,
    /// The number of the symbol, among those of the module.
    pub symbol: u32,
}

/// A chunk by its number among the chunks of a build. The type keeps it apart from the numbers of modules and symbols.
#[derive(Clone, Copy, PartialEq, Eq, PartialOrd, Ord, Default, Debug)]
pub struct ChunkIdx(pub u32);

impl HashKey for SymbolRef {
    ghost hashed = { symbol_hash };

    ghost tells = { Prim.search rules };

    fn hash(&self) -> u32 {
        mix(mix(0, self.owner), self.symbol)
    }
}

impl OrderedKey for SymbolRef {
    ghost under = { symbol_under };

    ghost order = { symbol_order };

    ghost agrees = { Prim.search rules };
}

impl HashKey for ChunkIdx {
    ghost hashed = { chunk_hash };

    ghost tells = { Prim.search rules };

    fn hash(&self) -> u32 {
        mix(0, self.0)
    }
}

impl OrderedKey for ChunkIdx {
    ghost under = { chunk_under };

    ghost order = { chunk_order };

    ghost agrees = { Prim.search rules };
}
