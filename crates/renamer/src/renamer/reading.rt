// What a session tells: its tables, the names that it has given, and what is on record.
ghost use Rattle.std.specs.Prelude.{◌≡◌, ◌<◌, length, MatchResult};
ghost use Rattle.std.specs.List.{slice_get};
ghost use Rattle.std.specs.Option.{option_map};
ghost use Rattle.names.specs.Refusals.{number_of};
ghost use Rattle.names.specs.Spelt.{spelt};
ghost use Rattle.keys.specs.Refs.{symbol_under};
ghost use Rattle.keyed_table.specs.Listed.{key_of, Listed};
ghost use Rattle.conflict_resolver.specs.Held.{held};
ghost use Rattle.conflict_resolver.specs.Rows.{record_of};
ghost use Rattle.given_names.specs.Held.{entries_of, given_in};
ghost use Rattle.renamer.specs.Printed.{printed_name};
ghost use Rattle.renamer.specs.State.{chunk_in, session_of};
ghost use Rattle.session_rules.specs.Laws.{Opened};

use super::Renamer;
use chunk_checks::checked::CheckedChunk;
use chunk_tables::chunk::Chunk;
use conflict_resolver::resolver::NameRecord;
use given_names::NamedSymbol;
use keys::refs::SymbolRef;
use names::name::Name;
use names::refusal::Refusal;

impl<'a> Renamer<'a> {
    /// The chunk that the session was opened over. It outlives the session, so it can be held while the session changes.
    pub fn checked(&self) -> &'a CheckedChunk
        ensures { result.now ≡ self.now.chunk.now }
    {
        self.chunk
    }

    /// Its tables.
    pub fn chunk(&self) -> &'a Chunk
        ensures { result.now ≡ self.now.chunk.now.chunk }
    {
        self.chunk.chunk()
    }

    /// The name that a reference to the symbol is printed as: the one that its printed symbol was given. There is none
    /// where that was given none: it is printed under its own name, or not at all.
    pub fn printed_name(&self, symbol: SymbolRef) -> Option<Name>
        ensures { option_map spelt result ≡ printed_name (chunk_in self.now) (given_in self.now.canonical_names) symbol }
    {
        let chunk = self.chunk.chunk();
        chunk.symbol_at(symbol)?;
        self.canonical_names
            .name_of(chunk.canonical_ref_resolving_namespace(symbol))
    }

    /// How many symbols have a name.
    pub fn named(&self) -> usize
        ensures { result ≡ length (given_in self.now.canonical_names) }
    {
        self.canonical_names.len()
    }

    /// Writes the symbols with their names to the front of `out`, ascending by the symbols, and answers how many there are.
    /// No symbol is named twice, no two have one name, none has a reserved one, and each stands in a root and has its own
    /// name or a numbered form of it.
    pub fn list(&self, out: &mut [NamedSymbol]) -> Result<usize, Refusal>
        ensures opened { ∥ Opened (chunk_in self.now) (session_of self.now) ∥₁ }
        ensures listed { MatchResult result (Listed key_of symbol_under (entries_of self.now.canonical_names) out.old out.new) (λ e. (number_of e ≡ 15) × (length out.old < length (given_in self.now.canonical_names)) × (out.new ≡ out.old)) }
    {
        self.canonical_names.list(out)
    }

    /// How many names are on record.
    pub fn records(&self) -> usize
        ensures { result ≡ length (held self.now.resolver) }
    {
        self.resolver.len()
    }

    /// The i-th record, in the order in which they were made.
    pub fn record_at(&self, i: usize) -> Option<NameRecord>
        ensures { option_map record_of result ≡ slice_get (held self.now.resolver) i }
    {
        self.resolver.record_at(i)
    }
}
