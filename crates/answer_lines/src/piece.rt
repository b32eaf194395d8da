// What an answer is put together of, piece behind piece.
ghost use Rattle.std.specs.Prelude.{List, ℕ, flat_map};
ghost use Rattle.answer_lines.specs.Writing.{Writes};

use std::alloc::AllocError;

/// What can be written into an answer: a text, or a row of a listing that becomes a line. All of them are written in one way, and
/// where memory runs out all leave the same: what was there, and a front part of the piece.
pub trait Piece {
    // The bytes that it is written as.
    ghost text: { Self → List ℕ };

    /// Writes the piece behind what was written before.
    fn write(&self, out: &mut Vec<u8>) -> Result<(), AllocError>
        ensures { Writes out.old out.new result (text self.now) };
}

// A text as it is.
impl<'a> Piece for &'a [u8] {
    ghost text = { λ t. t.now };

    fn write(&self, out: &mut Vec<u8>) -> Result<(), AllocError> {
        out.extend_from_slice(self)
    }
}

/// Writes each of the pieces, in order. Memory can run out between two of them, so an answer is to be read only if all was written.
pub fn write_each<P: Piece>(pieces: &[P], out: &mut Vec<u8>) -> Result<(), AllocError>
    ensures { Writes out.old out.new result (flat_map P.text pieces.now) }
{
    for piece in pieces {
        piece.write(out)?;
    }
    Ok(())
}
