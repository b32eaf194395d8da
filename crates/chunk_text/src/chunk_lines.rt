// The lines that stand outside of modules and add to a list of the chunk, or name its runtime.
ghost use Rattle.std.specs.Prelude.{map};
ghost use Rattle.chunk_tables.specs.View.{chunk_of};
ghost use Rattle.chunk_text.specs.Gives.{Gives};
ghost use Rattle.chunk_text.specs.ChunkLines.{chunk_line};

use crate::chunk_rows::{entry_row, other_row};
use crate::fault::ReadError;
use crate::words::{add_each, add_names, number_in, once, only_number, symbol_in};
use chunk_tables::chunk::Chunk;
use std::alloc::Global;

/// What such a line adds to. The documentation of the text has the words.
#[derive(Clone, Copy)]
pub enum ChunkVerb {
    /// Names that are defined where the script will run.
    Globals,
    /// The module of the runtime, which is no list: it can be given once.
    Runtime,
    /// The modules that the chunk joins.
    Members,
    /// External modules that they import from.
    Direct,
    /// External modules that the entry passes on.
    EntryLevel,
    /// External modules whose symbols are read all the same.
    Indirect,
    /// One symbol that the entry refers to.
    Entry,
    /// Symbols of external modules that are read.
    Used,
    /// Symbols of statements that the bundler adds.
    Synthetic,
    /// One other chunk.
    Other,
}

/// Adds what the line says. A line that comes again adds to what the first one did, so long lists can be broken up.
pub fn read_chunk_line(
    heap: Global,
    to: &mut Chunk,
    verb: ChunkVerb,
    words: &[&[u8]],
) -> Result<(), ReadError>
    ensures { Gives (λ _. chunk_of to.new) result (chunk_line (chunk_of to.old) verb (map (λ w. w.now) words.now)) }
{
    match verb {
        ChunkVerb::Globals => add_names(heap, &mut to.globals, words)?,
        ChunkVerb::Runtime => once(&mut to.runtime, only_number(words)?)?,
        ChunkVerb::Members => add_each(&mut to.chunk_modules, words, |word| number_in(word))?,
        ChunkVerb::Direct => add_each(&mut to.direct_externals, words, |word| number_in(word))?,
        ChunkVerb::EntryLevel => add_each(&mut to.entry_externals, words, |word| number_in(word))?,
        ChunkVerb::Indirect => add_each(&mut to.indirect_externals, words, |word| number_in(word))?,
        ChunkVerb::Entry => to.entry_symbols.push(entry_row(words)?)?,
        ChunkVerb::Used => {
            add_each(&mut to.used_external_symbols, words, |word| symbol_in(word))?
        }
        ChunkVerb::Synthetic => {
            add_each(&mut to.synthetic_symbols, words, |word| symbol_in(word))?
        }
        ChunkVerb::Other => to.other_chunks.push(other_row(heap, words)?)?,
    }
    Ok(())
}
