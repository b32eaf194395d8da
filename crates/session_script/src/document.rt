// The answer to a document: what each call of its session answers, and what memory is given back.
use crate::open::OpenSession;
use crate::print;
use crate::script::{Calls, Script, read_script};
use crate::tell::tell;
use chunk_checks::checked::CheckedChunk;
use chunk_text::document::Document;
use chunk_text::fault::DocumentError;
use documents::document::DocumentLines;
use renamer::renamer::Renamer;
use session_memory::memory::Memory;
use session_memory::sizes::sizes_for;
use std::alloc::{AllocError, Global};

// Makes the calls of a session that opened, and gives back its memory.
fn perform(
    heap: Global,
    renamer: Renamer<'_>,
    calls: &Calls<'_>,
    out: &mut Vec<u8>,
) -> Result<Memory, AllocError> {
    let mut session = OpenSession::new(heap, renamer);
    for call in &calls.open {
        session.perform(heap, *call, out)?;
    }
    let renamer = session.start_repair();
    for call in &calls.repairing {
        tell(heap, renamer.renamer(), *call, out)?;
    }
    Ok(renamer.into_memory())
}

// Opens a session over a chunk whose tables are sound, and makes its calls. The memory is given back also where none opens.
fn answer_calls(
    heap: Global,
    checked: &CheckedChunk,
    memory: Memory,
    calls: &Calls<'_>,
    out: &mut Vec<u8>,
) -> Result<Memory, AllocError> {
    match Renamer::open(checked, memory) {
        Ok(renamer) => perform(heap, renamer, calls, out),
        Err(refused) => {
            answer_lines::refused(refused.refusal, out)?;
            Ok(refused.memory)
        }
    }
}

fn answer_script(heap: Global, script: Script<'_>, out: &mut Vec<u8>) -> Result<(), AllocError> {
    let Document { chunk, memory } = script.document;
    let sizes = sizes_for(&chunk, memory);
    let memory = Memory::make(heap, sizes)?;
    let memory = match CheckedChunk::check(heap, chunk, &sizes) {
        Ok(checked) => answer_calls(heap, &checked, memory, &script.calls, out)?,
        Err(refused) => {
            answer_lines::refused(refused.refusal, out)?;
            memory
        }
    };
    print::memory(&memory.sizes(), out)?;
    answer_lines::done(out)
}

/// Where a line is faulty, that is the whole answer, and no call is made.
pub fn answer(
    heap: Global,
    document: DocumentLines<'_, '_>,
    out: &mut Vec<u8>,
) -> Result<(), AllocError> {
    match read_script(heap, document.lines) {
        Ok(script) => answer_script(heap, script, out),
        Err(DocumentError::Faulty(place, fault)) => {
            let number = document.number_at(place);
            answer_lines::fault(number, fault.words(), out)
        }
        Err(DocumentError::NoMemory) => Err(AllocError),
    }
}
