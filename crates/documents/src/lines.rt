// The lines of a text.
ghost use Rattle.std.specs.Prelude.{◌≡◌, map, IfOk};
ghost use Rattle.documents.specs.Documents.{lines, without_end};

use std::alloc::{AllocError, Global};

// The text without a line end at its end.
fn without_end(text: &[u8]) -> &[u8]
    ensures { result.now ≡ without_end text.now }
{
    match text {
        [front @ .., b'\n'] => front,
        _ => text,
    }
}

/// The lines of a text. A line end at the end of the text ends the last line and begins no further one, as editors write
/// it; so a text always has a line, which may be empty.
pub fn lines_of(heap: Global, text: &[u8]) -> Result<Vec<&[u8]>, AllocError>
    ensures { IfOk result (λ v. map (λ l. l.now) v.items ≡ lines text.now) }
{
    without_end(text).split(|byte| *byte == b'\n').collect(heap)
}
