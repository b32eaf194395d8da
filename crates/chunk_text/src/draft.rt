// A document of which some lines have been read.
ghost use Rattle.std.specs.Prelude.{◌≡◌, map, Some};
ghost use Rattle.std.specs.Option.{option_map};
ghost use Rattle.chunk_tables.specs.View.{module_of, chunk_of};
ghost use Rattle.chunk_text.specs.Documents.{outside_line, inside_line, spoken_line, worded_line, read_line, empty_draft, empty_chunk};
ghost use Rattle.chunk_text.specs.Gives.{Gives};
ghost use Rattle.chunk_text.specs.Seen.{draft_of};

use crate::chunk_lines::read_chunk_line;
use crate::chunk_rows::{format_code, memory_row, module_row};
use crate::fault::{Fault, ReadError};
use crate::module_lines::read_module_line;
use crate::verbs::{InsideVerb, OutsideVerb, inside_verb, outside_verb};
use crate::words::{has_empty_word, no_word, once, only_number, only_word, words_of};
use chunk_tables::chunk::{Chunk, Module};
use line_text::cut::trim_front;
use session_memory::sizes::MemorySizes;
use std::alloc::Global;

/// What has been read of a document. Lines that may come once are kept apart from the tables, to tell a second one; and so is the
/// module whose end has not come yet, since it decides which lines can come next.
#[derive(Drop)]
pub struct Draft {
    /// The format's code, once a line gives it.
    pub format: Option<u8>,
    /// How many names may be on record, once a line says so.
    pub records: Option<u32>,
    /// The memory for a session, once a line says how much.
    pub memory: Option<MemorySizes>,
    /// The module in which the next line stands, if it stands in one.
    pub unended: Option<Module>,
    /// The tables so far, with the modules that have ended.
    pub chunk: Chunk,
}

// Tables to which no line has added.
fn empty_chunk(heap: Global) -> Chunk
    ensures { chunk_of result ≡ empty_chunk }
{
    Chunk {
        format: 0,
        records: 0,
        globals: Vec::new(heap),
        runtime: None,
        modules: Vec::new(heap),
        chunk_modules: Vec::new(heap),
        direct_externals: Vec::new(heap),
        entry_externals: Vec::new(heap),
        indirect_externals: Vec::new(heap),
        entry_symbols: Vec::new(heap),
        used_external_symbols: Vec::new(heap),
        synthetic_symbols: Vec::new(heap),
        other_chunks: Vec::new(heap),
    }
}

impl Draft {
    /// A draft of which no line has been read.
    pub fn new(heap: Global) -> Draft
        ensures { draft_of result ≡ empty_draft }
    {
        Draft {
            format: None,
            records: None,
            memory: None,
            unended: None,
            chunk: empty_chunk(heap),
        }
    }

    // A line outside of a module.
    fn read_outside(
        &mut self,
        heap: Global,
        verb: OutsideVerb,
        words: &[&[u8]],
    ) -> Result<(), ReadError>
        ensures { Gives (λ _. draft_of self.new) result (outside_line (draft_of self.old) verb (map (λ w. w.now) words.now)) }
    {
        match verb {
            OutsideVerb::Format => once(&mut self.format, format_code(only_word(words)?))?,
            OutsideVerb::Records => once(&mut self.records, only_number(words)?)?,
            OutsideVerb::Memory => once(&mut self.memory, memory_row(words)?)?,
            OutsideVerb::Module => self.unended = Some(module_row(heap, words)?),
            OutsideVerb::List(verb) => read_chunk_line(heap, &mut self.chunk, verb, words)?,
        }
        Ok(())
    }

    // A line in the module.
    fn read_inside(
        &mut self,
        heap: Global,
        mut within: Module,
        verb: InsideVerb,
        words: &[&[u8]],
    ) -> Result<(), ReadError>
        ensures { Gives (λ _. draft_of self.new) result (inside_line (draft_of self.old) (module_of within) verb (map (λ w. w.now) words.now)) }
    {
        match verb {
            InsideVerb::Adds(verb) => {
                read_module_line(heap, &mut within, verb, words)?;
                self.unended = Some(within);
            }
            InsideVerb::End => {
                no_word(words)?;
                self.chunk.modules.push(within)?;
                self.unended = None;
            }
        }
        Ok(())
    }

    // A line by its first word and the others.
    fn read_spoken(&mut self, heap: Global, first: &[u8], words: &[&[u8]]) -> Result<(), ReadError>
        ensures { Gives (λ _. draft_of self.new) result (spoken_line (draft_of self.old) first.now (map (λ w. w.now) words.now)) }
    {
        match self.unended.take() {
            None => self.read_outside(heap, outside_verb(first)?, words),
            Some(within) => self.read_inside(heap, within, inside_verb(first)?, words),
        }
    }

    // A line by its words, none of which may be empty.
    fn read_worded(&mut self, heap: Global, words: &[&[u8]]) -> Result<(), ReadError>
        ensures { Gives (λ _. draft_of self.new) result (worded_line (draft_of self.old) (map (λ w. w.now) words.now)) }
    {
        if has_empty_word(words) {
            return Err(ReadError::Line(Fault::StraySpace));
        }
        match words {
            [] => Ok(()),
            [first, words @ ..] => self.read_spoken(heap, first, words),
        }
    }

    /// Reads one line. An empty line and one that begins with a number sign say nothing. After a fault the draft is no longer of use:
    /// what the line would have added to may be gone.
    pub fn read_line(&mut self, heap: Global, line: &[u8]) -> Result<(), ReadError>
        ensures { Gives (λ _. draft_of self.new) result (read_line (draft_of self.old) line.now) }
    {
        match trim_front(line) {
            [] | [b'#', ..] => Ok(()),
            line => {
                let words = words_of(heap, line)?;
                self.read_worded(heap, &words)
            }
        }
    }
}
