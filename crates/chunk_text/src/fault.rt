// What can be wrong with a line, and how reading ends where something is.
ghost use Rattle.std.specs.Prelude.{◌≡◌, Some};
ghost use Rattle.chunk_text.specs.Faults.{words_of, at_line};
ghost use Rattle.chunk_text.specs.declared.fault.ReadError.TheVariants.{Memory, Line};

use std::alloc::{AllocError, AllocFailed};
use std::fmt;

/// What is wrong with a line. One fault is told of a line, the first that a reader from left to right would meet.
#[derive(Clone, Copy, Debug, PartialEq, Eq)]
pub enum Fault {
    /// Two spaces in a row, or one at the end. It would be an empty word, which could be taken for an empty name.
    StraySpace,
    /// No line begins so, or none that can stand here.
    NoSuchLine,
    /// More words than the line can have, or fewer.
    WrongWords,
    /// A number has to stand here, and something else does, or a larger one than a table holds.
    NoNumber,
    /// Two numbers with a dot between them have to stand here.
    NoSymbol,
    /// One of a few words has to stand here, and another does.
    NoSuchWord,
    /// What can be said once was said before.
    GivenTwice,
    /// The document ends within a module.
    NoEnd,
}

impl Fault {
    /// What the fault says to people.
    pub fn words(self) -> &'static str
        ensures { result.now ≡ words_of self }
    {
        match self {
            Fault::StraySpace => "a space too many",
            Fault::NoSuchLine => "no such line here",
            Fault::WrongWords => "too many words, or too few",
            Fault::NoNumber => "not a number of at most 32 bits",
            Fault::NoSymbol => "not a symbol, as M.S",
            Fault::NoSuchWord => "not a word that can stand here",
            Fault::GivenTwice => "given a second time",
            Fault::NoEnd => "a module without its end",
        }
    }
}

impl fmt::Display for Fault {
    ghost output = { λ f. Some (words_of f) };

    fn fmt<W: fmt::Write>(&self, f: &mut fmt::Formatter<W>) -> fmt::Result {
        f.write_str(self.words())
    }
}

/// Why a line was not read. The two are kept apart, since only one of them is the line's own.
#[derive(Clone, Copy, Debug)]
pub enum ReadError {
    /// There was no memory for what it says.
    Memory,
    /// It has a fault.
    Line(Fault),
}

/// Why a document was not read.
#[derive(Clone, Copy, Debug)]
pub enum DocumentError {
    /// There was no memory for what it says.
    NoMemory,
    /// The line of this number, from 0, is the first with a fault. A module that does not end is a fault of the line behind the
    /// last one.
    Faulty(usize, Fault),
}

impl ReadError {
    /// The same of the document, in which the line has this number.
    pub fn at(self, line: usize) -> DocumentError
        ensures { result ≡ at_line line self }
    {
        match self {
            ReadError::Memory => DocumentError::NoMemory,
            ReadError::Line(fault) => DocumentError::Faulty(line, fault),
        }
    }
}

impl From<Fault> for ReadError {
    ghost from_gives = { λ f e. e ≡ Line f };

    fn from(fault: Fault) -> ReadError {
        Self::Line(fault)
    }
}

impl From<AllocError> for ReadError {
    ghost from_gives = { λ _ e. e ≡ Memory };

    fn from(_error: AllocError) -> ReadError {
        Self::Memory
    }
}

impl<T: Drop> From<AllocFailed<T>> for ReadError {
    ghost from_gives = { λ _ e. e ≡ Memory };

    fn from(_failed: AllocFailed<T>) -> ReadError {
        ReadError::from(AllocError)
    }
}
