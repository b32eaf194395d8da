// The lines that programs answer. They are bytes, since a name need not be UTF-8.
#![tactic(auto)]

ghost use Rattle.answer_lines.specs.Lines.{line, done_line, fault_line, refused_line};
ghost use Rattle.answer_lines.specs.Writing.{Writes};
ghost use Rattle.names.specs.Spelt.{spelt};

use crate::piece::write_each;
use itoa::Buffer;
use names::name::Name;
use names::refusal::Refusal;
use std::alloc::AllocError;

pub mod part;
pub mod piece;
mod rows;

// How a line ends.
const END: &[u8] = b"\n";

/// The last word of a line, which is a name, and the end of the line. What stands in front of it is the program's own.
pub fn end_with(name: &Name, out: &mut Vec<u8>) -> Result<(), AllocError>
    ensures { Writes out.old out.new result (line (spelt name.now)) }
{
    write_each(&[name.as_bytes(), END], out)
}

/// What is wrong with a line of the input, and which line it is, so that it can be found and mended.
pub fn fault(number: usize, words: &str, out: &mut Vec<u8>) -> Result<(), AllocError>
    ensures { Writes out.old out.new result (fault_line number words.now) }
{
    let mut digits = Buffer::new();
    let number = digits.format(number).as_bytes();
    let begin: &[u8] = b"line ";
    write_each(&[begin, number, b": ", words.as_bytes(), END], out)
}

/// A refusal, by its number and its words: programs go by the one, people by the other.
pub fn refused(refusal: Refusal, out: &mut Vec<u8>) -> Result<(), AllocError>
    ensures { Writes out.old out.new result (refused_line refusal) }
{
    let mut digits = Buffer::new();
    let number = digits.format(refusal.number()).as_bytes();
    let begin: &[u8] = b"refused ";
    write_each(&[begin, number, b" ", refusal.words().as_bytes(), END], out)
}

/// The last line of a document's answer. An answer without it was cut off.
pub fn done(out: &mut Vec<u8>) -> Result<(), AllocError>
    ensures { Writes out.old out.new result done_line }
{
    let done: &[u8] = b"done";
    write_each(&[done, END], out)
}
