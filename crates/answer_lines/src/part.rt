// Parts of a line.
ghost use Rattle.answer_lines.specs.Parts.{part_text};

use crate::piece::Piece;
use itoa::Buffer;
use std::alloc::AllocError;

/// A part of a line that has numbers in it: text as it is, or a number in decimal.
#[derive(Clone, Copy)]
pub enum Part<'a> {
    Text(&'a [u8]),
    Number(usize),
}

impl Piece for Part<'_> {
    ghost text = { part_text };

    fn write(&self, out: &mut Vec<u8>) -> Result<(), AllocError> {
        match self {
            Part::Text(text) => out.extend_from_slice(text),
            Part::Number(number) => {
                let mut digits = Buffer::new();
                out.extend_from_slice(digits.format(*number).as_bytes())
            }
        }
    }
}
