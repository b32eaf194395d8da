// The answer to a document: what the symbols of its chunk are named.
use crate::print;
use chunk_checks::checked::CheckedChunk;
use chunk_text::document::{Document, read_document};
use chunk_text::fault::DocumentError;
use deconflict_chunk_symbols::run::deconflict_chunk_symbols;
use documents::document::DocumentLines;
use renamer::renamer::Renamer;
use session_memory::memory::Memory;
use session_memory::sizes::sizes_for;
use std::alloc::{AllocError, Global};

// Names the symbols of the chunk, and tells the names, the helpers and the records.
fn name_symbols(
    heap: Global,
    renamer: &mut Renamer<'_>,
    out: &mut Vec<u8>,
) -> Result<(), AllocError> {
    match deconflict_chunk_symbols(renamer) {
        Ok(()) => {
            print::names(heap, renamer, out)?;
            print::helpers(heap, renamer, out)?;
            print::records(heap, renamer, out)
        }
        Err(refusal) => answer_lines::refused(refusal, out),
    }
}

// Opens a session over a chunk whose tables are sound, and names its symbols.
fn answer_checked(
    heap: Global,
    checked: &CheckedChunk,
    memory: Memory,
    out: &mut Vec<u8>,
) -> Result<(), AllocError> {
    match Renamer::open(checked, memory) {
        Ok(mut renamer) => name_symbols(heap, &mut renamer, out),
        Err(refused) => answer_lines::refused(refused.refusal, out),
    }
}

fn answer_chunk(heap: Global, document: Document, out: &mut Vec<u8>) -> Result<(), AllocError> {
    let Document { chunk, memory } = document;
    let sizes = sizes_for(&chunk, memory);
    let memory = Memory::make(heap, sizes)?;
    match CheckedChunk::check(heap, chunk, &sizes) {
        Ok(checked) => answer_checked(heap, &checked, memory, out)?,
        Err(refused) => answer_lines::refused(refused.refusal, out)?,
    }
    answer_lines::done(out)
}

/// Where a line is faulty, that is the whole answer.
pub fn answer(
    heap: Global,
    document: DocumentLines<'_, '_>,
    out: &mut Vec<u8>,
) -> Result<(), AllocError> {
    match read_document(heap, document.lines) {
        Ok(document) => answer_chunk(heap, document, out),
        Err(DocumentError::Faulty(place, fault)) => {
            let number = document.number_at(place);
            answer_lines::fault(number, fault.words(), out)
        }
        Err(DocumentError::NoMemory) => Err(AllocError),
    }
}
