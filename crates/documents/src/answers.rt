// Answers to documents, one behind another.
ghost use Rattle.std.specs.Prelude.{◌≡◌, ℕ, List, IfOk};
ghost use Rattle.std.specs.Result.{OnOk};
ghost use Rattle.std.specs.Option.{IfSome};
ghost use Rattle.std.specs.Io.KnownBytes.{Appends};
ghost use Rattle.documents.specs.Documents.{Document};
ghost use Rattle.documents.specs.Answers.{Says, answers};

use crate::document::{DocumentLines, documents_of};
use crate::lines::lines_of;
use std::alloc::{AllocError, Global};
use std::io::{self, Read, Write};

/// The answers to the documents of a text, one behind another. `answer` writes what a document answers behind what it is
/// given. Where memory runs out there is no answer at all, so that nobody takes a part of it for the whole.
pub fn answers_to<F: Fn(Global, DocumentLines<'_, '_>, &mut Vec<u8>) -> Result<(), AllocError>>(
    heap: Global,
    text: &[u8],
    answer: F,
) -> Result<Vec<u8>, AllocError>
    requires { F.IsAlwaysCallable answer }
    ensures { (says : Document → List ℕ) → Says (F.post answer heap) says → IfOk result (λ out. out.items ≡ answers says text.now) }
{
    let lines = lines_of(heap, text)?;
    let documents = documents_of(heap, &lines)?;
    let mut out = Vec::new(heap);
    for document in &documents {
        answer(heap, *document, &mut out)?;
    }
    Ok(out)
}

/// Reads an input to its end, and writes the answers to its documents. Nothing is written before all is answered. A program
/// says by its own error what it tells of a reader or a writer that fails, and of memory that runs out.
pub fn answer_input<
    R: Read,
    W: Write,
    F: Fn(Global, DocumentLines<'_, '_>, &mut Vec<u8>) -> Result<(), AllocError>,
    E: From<io::Error> + From<AllocError>,
>(heap: Global, input: &mut R, output: &mut W, answer: F) -> Result<(), E>
    requires { F.IsAlwaysCallable answer }
    ensures { (says : Document → List ℕ) → Says (F.post answer heap) says → OnOk result (IfSome (R.remaining input.old) (λ text. Appends (W.contents output.old) (W.contents output.new) (answers says text))) }
{
    let mut text = Vec::new(heap);
    input.read_to_end(&mut text)?;
    let answers = answers_to(heap, &text, answer)?;
    Ok(output.write_all(&answers)?)
}
