// The names by symbols: how one is given, and what is asked.
ghost use Rattle.std.specs.Prelude.{◌≡◌, ◌<◌, ◌≤◌, true, [], length, is_some, is_ok, vec_len, MatchResult};
ghost use Rattle.std.specs.Option.{option_map};
ghost use Rattle.std.specs.List.{slice_get};
ghost use Rattle.names.specs.Refusals.{number_of};
ghost use Rattle.names.specs.Spelt.{spelt};
ghost use Rattle.keys.specs.Refs.{symbol_under};
ghost use Rattle.keyed_table.specs.Links.{AllBlank};
ghost use Rattle.keyed_table.specs.Listed.{key_of, Listed};
ghost use Rattle.chunk_tables.specs.Model.{Chunk};
ghost use Rattle.chunk_tables.specs.Links.{symbol_at};
ghost use Rattle.chunk_tables.specs.Limits.{symbol_count};
ghost use Rattle.session_rules.specs.Session.{name_of as name_given};
ghost use Rattle.given_names.specs.Held.{entries_of, given_in, room_for, OfChunk, NoPlace, naming};

use crate::{GivenNames, NamedSymbol};
use keyed_table::table::Table;
use keys::refs::SymbolRef;
use names::name::Name;
use names::refusal::Refusal;
use session_memory::memory::NameSlot;

impl GivenNames {
    /// No symbol has a name yet; each slot is emptied, whatever an earlier session left in it.
    pub fn new(slots: Vec<NameSlot>) -> GivenNames
        ensures empty { given_in result ≡ [] }
        ensures room { room_for result ≡ vec_len slots }
        ensures blank { AllBlank result.names.memory }
    {
        let names = Table::new(slots);
        GivenNames { names }
    }

    /// How many symbols have a name.
    pub fn len(&self) -> usize
        ensures { result ≡ length (given_in self.now) }
    {
        self.names.len()
    }

    // The i-th symbol that was given a name, with the name.
    pub fn entry(&self, i: usize) -> Option<NamedSymbol>
        ensures { result ≡ slice_get (entries_of self.now) i }
    {
        self.names.entry(i)
    }

    /// The name of a symbol, if it has one.
    pub fn name_of(&self, symbol: SymbolRef) -> Option<Name>
        ensures { option_map spelt result ≡ name_given (given_in self.now) symbol }
    {
        self.names.find(&symbol)
    }

    /// Gives a symbol that has no name this one. A symbol that has a name keeps it. There is a place for each symbol of a chunk
    /// where the memory has as many, so only a caller who names other symbols, or has less memory, is refused.
    pub fn give(&mut self, symbol: SymbolRef, name: Name) -> Result<(), Refusal>
        ensures given { MatchResult result (λ _. given_in self.new ≡ naming (given_in self.old) symbol (spelt name)) (λ e. (number_of e ≡ 10) × NoPlace self.old symbol × (self.new ≡ self.old)) }
        ensures room { room_for self.new ≡ room_for self.old }
        ensures enough { (c : Chunk) → OfChunk c (given_in self.old) → is_some (symbol_at c symbol) ≡ true → symbol_count c ≤ room_for self.old → is_ok result ≡ true }
    {
        if self.name_of(symbol).is_some() {
            return Ok(());
        }
        self.names.insert(symbol, name)
    }

    /// Writes the symbols with their names to the front of `out`, ascending by the symbols, and answers how many there are.
    pub fn list(&self, out: &mut [NamedSymbol]) -> Result<usize, Refusal>
        ensures { MatchResult result (Listed key_of symbol_under (entries_of self.now) out.old out.new) (λ e. (number_of e ≡ 15) × (length out.old < length (given_in self.now)) × (out.new ≡ out.old)) }
    {
        self.names.list(out)
    }

    /// Ends the map, and gives back its memory, as it is.
    pub fn into_slots(self) -> Vec<NameSlot>
        ensures memory { result.items ≡ self.names.memory }
        ensures room { vec_len result ≡ room_for self }
    {
        let GivenNames { names } = self;
        names.into_slots()
    }
}
