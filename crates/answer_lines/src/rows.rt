// The rows of listings as lines.
ghost use Rattle.answer_lines.specs.Lines.{name_line, helper_line, record_line};

use crate::END;
use crate::piece::{Piece, write_each};
use conflict_resolver::resolver::NameRecord;
use itoa::Buffer;
use keyed_table::slot::Entry;
use keys::refs::{ChunkIdx, SymbolRef};
use names::name::Name;
use std::alloc::AllocError;

// A symbol by its two numbers, and the name that it was given.
impl Piece for Entry<SymbolRef, Name> {
    ghost text = { name_line };

    fn write(&self, out: &mut Vec<u8>) -> Result<(), AllocError> {
        let mut owner_digits = Buffer::new();
        let owner = owner_digits.format(self.key.owner).as_bytes();
        let mut symbol_digits = Buffer::new();
        let symbol = symbol_digits.format(self.key.symbol).as_bytes();
        let begin: &[u8] = b"name ";
        write_each(
            &[begin, owner, b" ", symbol, b" ", self.value.as_bytes(), END],
            out,
        )
    }
}

// Another chunk by its number, and the name of the helper through which it is read.
impl Piece for Entry<ChunkIdx, Name> {
    ghost text = { helper_line };

    fn write(&self, out: &mut Vec<u8>) -> Result<(), AllocError> {
        let mut digits = Buffer::new();
        let number = digits.format(self.key.0).as_bytes();
        let begin: &[u8] = b"helper ";
        write_each(&[begin, number, b" ", self.value.as_bytes(), END], out)
    }
}

// A name on record, and its counter behind it.
impl Piece for NameRecord {
    ghost text = { record_line };

    fn write(&self, out: &mut Vec<u8>) -> Result<(), AllocError> {
        let mut digits = Buffer::new();
        let counter = digits.format(self.counter).as_bytes();
        let begin: &[u8] = b"record ";
        write_each(&[begin, self.name.as_bytes(), b" ", counter, END], out)
    }
}
