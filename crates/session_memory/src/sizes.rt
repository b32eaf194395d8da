// How much memory a session is given, and how much a chunk needs.
ghost use Rattle.std.specs.Prelude.{◌≡◌};
ghost use Rattle.chunk_tables.specs.View.{chunk_of};
ghost use Rattle.session_memory.specs.Laws.{GivesRoom, Suffices};
ghost use Rattle.session_memory.specs.Sizes.{needed, too_small, sizes_for};

use chunk_tables::chunk::Chunk;
use chunk_tables::limits::MOST_SYMBOLS;
use chunk_tables::totals::Totals;
use names::limits::MOST_RECORDS;

/// How many entries of each kind there is room for. A session takes no memory while it names, so all of it is there from
/// the start, and only memory that is too small can be refused.
#[derive(Clone, Copy)]
pub struct MemorySizes {
    /// Names on record.
    pub records: usize,
    /// Names that symbols are given.
    pub names: usize,
    /// Names of inner bindings.
    pub inner: usize,
    /// Marks of repaired modules.
    pub marks: usize,
    /// Names of the helpers of other chunks.
    pub helpers: usize,
}

impl MemorySizes {
    /// A place for each record, symbol, module and other chunk. With these no table of a session is ever full: each symbol
    /// is named once, and has one name of its own.
    pub fn needed_by(chunk: &Chunk) -> MemorySizes
        ensures { result ≡ needed (chunk_of chunk.now) }
    {
        let symbols = Totals::of(chunk).symbols;
        MemorySizes {
            records: chunk.records as usize,
            names: symbols,
            inner: symbols,
            marks: chunk.modules.len(),
            helpers: chunk.other_chunks.len(),
        }
    }

    /// Whether the chunk needs more places of some kind than there are.
    pub fn is_too_small_for(&self, chunk: &Chunk) -> bool
        ensures rules { result ≡ too_small (chunk_of chunk.now) self.now }
        ensures good_for { GivesRoom }
    {
        let needed = MemorySizes::needed_by(chunk);
        self.records < needed.records
            || self.names < needed.names
            || self.inner < needed.inner
            || self.marks < needed.marks
            || self.helpers < needed.helpers
    }
}

/// The sizes that are given, or else those that the chunk needs. They are no more than a chunk within the limits can need,
/// so that a large number takes no memory that would not be used; such a chunk finds them too small just where it finds
/// too small what is given.
pub fn sizes_for(chunk: &Chunk, given: Option<MemorySizes>) -> MemorySizes
    ensures sizes { result ≡ sizes_for (chunk_of chunk.now) given }
    ensures good_for { Suffices }
{
    let needed = MemorySizes::needed_by(chunk);
    let sizes = given.unwrap_or(needed);
    MemorySizes {
        records: sizes.records.min(MOST_RECORDS as usize),
        names: sizes.names.min(MOST_SYMBOLS),
        inner: sizes.inner.min(MOST_SYMBOLS),
        marks: sizes.marks.min(needed.marks),
        helpers: sizes.helpers.min(needed.helpers),
    }
}
