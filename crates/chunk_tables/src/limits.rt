// How large the tables of a chunk may be.
ghost use Rattle.std.specs.Prelude.{◌≡◌, length};
ghost use Rattle.chunk_tables.specs.Limits.{over_limits, too_large};
ghost use Rattle.chunk_tables.specs.View.{chunk_of};

use crate::chunk::Chunk;
use crate::totals::Totals;
use names::limits::MOST_RECORDS;

/// A chunk knows at most so many modules, those outside it and external ones among them.
pub const MOST_MODULES: usize = 256;

/// The modules of a chunk have at most so many scopes together, their roots among them.
pub const MOST_SCOPES: usize = 16384;

/// The modules of a chunk have at most so many symbols together. A chain of links that is longer than this comes to one
/// of its symbols again, so it is a circle.
pub const MOST_SYMBOLS: usize = 16384;

/// The modules of a chunk have at most so many references together.
pub const MOST_REFERENCES: usize = 32768;

impl Totals {
    // Whether the chunk that has them is over the limits.
    fn is_over_limits(&self, chunk: &Chunk) -> bool
        ensures { result ≡ over_limits (length (chunk_of chunk.now).modules) self.now.scopes self.now.symbols self.now.references (chunk_of chunk.now).records }
    {
        chunk.modules.len() > MOST_MODULES
            || self.scopes > MOST_SCOPES
            || self.symbols > MOST_SYMBOLS
            || self.references > MOST_REFERENCES
            || chunk.records == 0
            || chunk.records > MOST_RECORDS
    }
}

impl Chunk {
    /// Whether the chunk has more rows than a chunk may have, or a number of records that none may have: with no record
    /// nothing could be named, and the searches of names are bounded by the most records.
    pub fn is_too_large(&self) -> bool
        ensures { result ≡ too_large (chunk_of self.now) }
    {
        Totals::of(self).is_over_limits(self)
    }
}
