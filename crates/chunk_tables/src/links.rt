// Links and aliases of symbols.
ghost use Rattle.std.specs.Prelude.{◌≡◌};
ghost use Rattle.std.specs.Option.{option_map};
ghost use Rattle.std.specs.List.{slice_get};
ghost use Rattle.chunk_tables.specs.Links.{symbol_at, link_of, alias_of, follow, canonical, end_after, printed};
ghost use Rattle.chunk_tables.specs.View.{chunk_of, module_of, other_of, symbol_of};

use crate::chunk::{Chunk, Module, OtherChunk};
use crate::limits::MOST_SYMBOLS;
use crate::parts::Symbol;
use keys::refs::SymbolRef;

impl Module {
    /// The symbol of this number. There may be none: tables are read before they are checked, too.
    pub fn symbol_at(&self, number: usize) -> Option<&Symbol>
        ensures { option_map (λ y. symbol_of y.now) result ≡ slice_get (module_of self.now).symbols number }
    {
        self.symbols.get(number)
    }
}

impl Chunk {
    /// The module of this number, if there is one.
    pub fn module_at(&self, number: usize) -> Option<&Module>
        ensures { option_map (λ m. module_of m.now) result ≡ slice_get (chunk_of self.now).modules number }
    {
        self.modules.get(number)
    }

    /// The other chunk at a place of the list. Other chunks are named by their places, since their numbers need not be
    /// close to one another.
    pub fn other_at(&self, place: usize) -> Option<&OtherChunk>
        ensures { option_map (λ o. other_of o.now) result ≡ slice_get (chunk_of self.now).others place }
    {
        self.other_chunks.get(place)
    }

    /// The symbol that the two numbers name, if there is one.
    pub fn symbol_at(&self, symbol: SymbolRef) -> Option<&Symbol>
        ensures { option_map (λ y. symbol_of y.now) result ≡ symbol_at (chunk_of self.now) symbol }
    {
        let module = self.module_at(symbol.owner as usize)?;
        module.symbol_at(symbol.symbol as usize)
    }

    /// What the symbol is linked to. A link says that two symbols are one variable: an import is linked to what it imports, and
    /// both are printed alike.
    ///
    /// ```js
    /// export const now = 1; // of clock.js
    /// import { now as start } from './clock.js'; // of page.js: `start` is linked to `now`
    /// ```
    pub fn link_of(&self, symbol: SymbolRef) -> Option<SymbolRef>
        ensures { result ≡ link_of (chunk_of self.now) symbol }
    {
        self.symbol_at(symbol)?.link
    }

    /// What the symbol is read through. An alias says that there is no variable, but a property of one: what is imported from a
    /// CommonJS module is printed through its namespace.
    ///
    /// ```js
    /// import { now } from './clock.cjs'; // in the source
    /// import_clock.now; // in the output, for each `now`
    /// ```
    pub fn alias_of(&self, symbol: SymbolRef) -> Option<SymbolRef>
        ensures { result ≡ alias_of (chunk_of self.now) symbol }
    {
        self.symbol_at(symbol)?.alias
    }

    // The symbol that is reached by following links, but no more than so many.
    // A loop, since a chain of iterators would hide that the walk stops in two ways.
    #[tactic(auto, using(crate::proofs::Chains::follow_end, crate::proofs::Chains::follow_on))]
    fn follow_links(&self, symbol: SymbolRef, most: usize) -> SymbolRef
        ensures { result ≡ follow (chunk_of self.now) most symbol }
    {
        let mut found = symbol;
        for _ in 0..most {
            let Some(link) = self.link_of(found) else {
                return found;
            };
            found = link;
        }
        found
    }

    /// The symbol that the chain of links leads to. All symbols of a chain are one variable, and this is the one that is declared:
    /// it has the name that all are printed by. On tables with a circle the walk stops after more links than there are symbols.
    #[tactic(auto, unfolding(crate::specs::Links::canonical))]
    pub fn canonical_ref_for(&self, symbol: SymbolRef) -> SymbolRef
        ensures { result ≡ canonical (chunk_of self.now) symbol }
    {
        self.follow_links(symbol, MOST_SYMBOLS)
    }

    /// The canonical symbol of one that is linked to this one. It is for a caller who has the symbol's row and not its numbers: the
    /// link that led here counts, so there is one less to follow.
    #[tactic(auto, unfolding(crate::specs::Links::end_after))]
    pub fn end_after(&self, link: SymbolRef) -> SymbolRef
        ensures { result ≡ end_after (chunk_of self.now) link }
    {
        self.follow_links(link, MOST_SYMBOLS - 1)
    }

    /// The symbol whose name stands first where the given one is printed. It is the canonical one, unless that is a property of
    /// another: then it is the variable that has the property.
    pub fn canonical_ref_resolving_namespace(&self, symbol: SymbolRef) -> SymbolRef
        ensures { result ≡ printed (chunk_of self.now) symbol }
    {
        let canonical = self.canonical_ref_for(symbol);
        self.alias_of(canonical)
            .map_or(canonical, |alias| self.canonical_ref_for(alias))
    }
}
