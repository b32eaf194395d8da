// Why a call is refused.
ghost use Rattle.std.specs.Prelude.{◌≡◌, Some};
ghost use Rattle.names.specs.Refusals.{number_of, words_of};

use std::fmt;

/// Why a call is refused. There is one enum for all layers, so a refusal is the same value at each call that it comes up
/// through, and a user is told one number for one reason.
#[derive(Clone, Copy, Debug, PartialEq, Eq)]
pub enum Refusal {
    /// A chunk is larger than a session takes, or the memory that was made is too small for it. Searches and walks take a
    /// time that these limits bound.
    OutsideLimit = 1,
    /// A number names a row that a table does not have, or a code a format that there is not.
    OutOfRange = 2,
    /// Modules are named from the last that runs to the first, a listing of other chunks is by rising numbers, and a walk
    /// outward ends since a scope comes behind the one around it. Tables in another order have none of that.
    OutOfOrder = 3,
    /// Two symbols are bound under one name in one scope, so it is open which of them a reference means. In a source that
    /// cannot be: `var now; var now` declares one binding twice, and `let now; let now` is an error. Or a symbol or a scope
    /// stands where none of its sort can.
    Misplaced = 4,
    /// Links go in a circle, so that nothing is at their end; or an alias leads to an alias; or a bound symbol that is no
    /// import has a link or an alias.
    BadLink = 5,
    /// A reference has another target than its scopes give it, or a name that is said to be bound nowhere is bound after all.
    BadReference = 6,
    /// A text can be no base: it is empty, or no numbered form of it would fit a name.
    BadName = 7,
    /// A call names a symbol that no module has.
    NoSuchSymbol = 8,
    /// A name at the top level was asked for a symbol whose canonical one stands in a function or a block of its module.
    NotInRoot = 9,
    /// The caller's records are all in use. Whatever needs a new one is refused before anything is written.
    NoFreeRecord = 10,
    /// The next number behind the base would have five digits.
    CounterLimit = 11,
    /// A search has looked at as many numbers as one may.
    SearchTooLong = 12,
    /// A module was to be repaired that the chunk does not print, or that has been repaired before.
    NotRepairable = 13,
    /// A session was to end in which a module's inner bindings may still capture a reference.
    Unrepaired = 14,
    /// A listing has more rows than the buffer that the caller made for it.
    BufferTooShort = 15,
}

impl Refusal {
    /// The number by which users know the refusal. It is part of what programs print, and never changes.
    pub fn number(self) -> u8
        ensures { result ≡ number_of self }
    {
        self as u8
    }

    /// What the refusal says to people, in half a line.
    pub fn words(self) -> &'static str
        ensures { result.now ≡ words_of self }
    {
        match self {
            Refusal::OutsideLimit => "outside a limit, or too little memory",
            Refusal::OutOfRange => "a number or the format is out of range",
            Refusal::OutOfOrder => "modules, chunk numbers or scopes out of order",
            Refusal::Misplaced => "two bindings of one name, or a misplaced scope or symbol",
            Refusal::BadLink => "a link or alias that leads nowhere or does not belong there",
            Refusal::BadReference => "a reference or unresolved name that is bound otherwise",
            Refusal::BadName => "a name that is empty or over 100 bytes",
            Refusal::NoSuchSymbol => "no such symbol",
            Refusal::NotInRoot => "the canonical symbol is not in a root scope",
            Refusal::NoFreeRecord => "no free record",
            Refusal::CounterLimit => "a number would pass 9999",
            Refusal::SearchTooLong => "more than 4096 probes would be needed",
            Refusal::NotRepairable => "not a module of the chunk, or repaired already",
            Refusal::Unrepaired => "a module is not repaired",
            Refusal::BufferTooShort => "the buffer is too short",
        }
    }
}

impl fmt::Display for Refusal {
    ghost output = { λ r. Some (words_of r) };

    fn fmt<W: fmt::Write>(&self, f: &mut fmt::Formatter<W>) -> fmt::Result {
        f.write_str(self.words())
    }
}
