// Documents: the lines of a text that stand between two separators.
ghost use Rattle.std.specs.Prelude.{◌≡◌, ◌+◌, ◌-◌, ◌^◌, min, map, IfOk};
ghost use Rattle.documents.specs.Documents.{is_separator, documents, parts};
ghost use Rattle.documents.specs.View.{document_of};

use line_text::cut::trim_front;
use std::alloc::{AllocError, Global};

const SEPARATOR: &[u8] = b"---";

/// The lines of a document, and where they stand in the text, so that what is wrong with one of them can be told by the
/// number that an editor shows.
#[derive(Clone, Copy)]
pub struct DocumentLines<'t, 'a> {
    /// The number of the first of these lines; the first line of the text has number 1.
    pub first: usize,
    pub lines: &'t [&'a [u8]],
}

impl DocumentLines<'_, '_> {
    /// The number, in the text, of the line at a place of the document; places count from 0.
    pub fn number_at(&self, place: usize) -> usize
        ensures { result ≡ min (self.now.first + place) (2 ^ 64 - 1) }
    {
        self.first.saturating_add(place)
    }
}

/// Whether a line stands between two documents. Spaces in front of it are passed over, as in front of every line.
pub fn is_separator(line: &[u8]) -> bool
    ensures { result ≡ is_separator line.now }
{
    trim_front(line) == SEPARATOR
}

// What stands between the separators, also where that is no line.
fn parts_of<'t, 'a>(heap: Global, lines: &'t [&'a [u8]]) -> Result<Vec<&'t [&'a [u8]]>, AllocError>
    ensures { IfOk result (λ v. map (λ p. map (λ l. l.now) p.now) v.items ≡ parts (map (λ l. l.now) lines.now)) }
{
    lines.split(|line| is_separator(line)).collect(heap)
}

/// The documents that the lines are. Where no line stands between two separators there is no document, so that a
/// separator may also stand in front of the first document or behind the last one.
pub fn documents_of<'t, 'a>(
    heap: Global,
    lines: &'t [&'a [u8]],
) -> Result<Vec<DocumentLines<'t, 'a>>, AllocError>
    ensures { IfOk result (λ v. map document_of v.items ≡ documents (map (λ l. l.now) lines.now)) }
{
    let parts = parts_of(heap, lines)?;
    let mut documents = Vec::new(heap);
    let mut first = 1;
    for part in &parts {
        if !part.is_empty() {
            documents.push(DocumentLines { first, lines: part })?;
        }
        first += part.len() + 1;
    }
    Ok(documents)
}
