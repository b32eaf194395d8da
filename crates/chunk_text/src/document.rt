// A document: the lines that describe one chunk.
ghost use Rattle.std.specs.Prelude.{map};
ghost use Rattle.chunk_text.specs.Documents.{document, finished, read_lines};
ghost use Rattle.chunk_text.specs.Gives.{GivesAll};
ghost use Rattle.chunk_text.specs.Seen.{draft_of, document_of};

use crate::draft::Draft;
use crate::fault::{DocumentError, Fault};
use chunk_tables::chunk::Chunk;
use names::limits::MOST_RECORDS;
use session_memory::sizes::MemorySizes;
use std::alloc::Global;

/// What a document describes. The tables are not checked: a document can describe any, and a program hands them on to be refused.
#[derive(Drop)]
pub struct Document {
    /// The tables that the lines say.
    pub chunk: Chunk,
    /// How much memory a session over them is to have, where a line says that. It is for documents that show what too little does.
    pub memory: Option<MemorySizes>,
}

// Reads the lines into the draft, up to the first that has a fault, and tells the number of that.
fn read_lines(heap: Global, draft: &mut Draft, lines: &[&[u8]]) -> Result<(), DocumentError>
    ensures { GivesAll (λ _. draft_of draft.new) result (read_lines 0 (draft_of draft.old) (map (λ l. l.now) lines.now)) }
{
    for (number, line) in lines.iter().enumerate() {
        draft
            .read_line(heap, line)
            .map_err(|error| error.at(number))?;
    }
    Ok(())
}

// The document that the draft has become. A module that has no end may have lost lines, so it is a fault, of the line behind
// the last one. A format that no line gives is handed on as one that there is not.
fn finish(draft: Draft, end: usize) -> Result<Document, DocumentError>
    ensures { GivesAll document_of result (finished end (draft_of draft)) }
{
    if draft.unended.is_some() {
        return Err(DocumentError::Faulty(end, Fault::NoEnd));
    }
    let mut chunk = draft.chunk;
    chunk.format = draft.format.unwrap_or(0);
    chunk.records = draft.records.unwrap_or(MOST_RECORDS);
    Ok(Document {
        chunk,
        memory: draft.memory,
    })
}

/// The document that the lines are, or the first of them that is faulty, counted from 0, and what is wrong with it. Nothing is
/// passed over but empty lines and remarks: a line that is not understood may be one that matters.
pub fn read_document(heap: Global, lines: &[&[u8]]) -> Result<Document, DocumentError>
    ensures { GivesAll document_of result (document (map (λ l. l.now) lines.now)) }
{
    let mut draft = Draft::new(heap);
    read_lines(heap, &mut draft, lines)?;
    finish(draft, lines.len())
}
