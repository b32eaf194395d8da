// The names that symbols were given, in memory that the caller makes, hands over and gets back.
#![tactic(auto)]

ghost use Rattle.keyed_table.specs.Model.{Distinct};
ghost use Rattle.given_names.specs.Laws.{FitsTheSymbols};

use keyed_table::slot::Entry;
use keyed_table::table::Table;
use keys::refs::SymbolRef;
use names::name::Name;

pub mod by_symbol;

/// A symbol with the name that it was given.
pub type NamedSymbol = Entry<SymbolRef, Name>;

/// The map from symbols to their names. A symbol in it keeps its name: whoever prints it may have been told already.
#[derive(Drop)]
pub struct GivenNames {
    names: Table<SymbolRef, Name>,
    // No symbol has two names.
    ghost distinct: { Distinct names.entries },
}

/// Stands for how large a table of symbols can be: it has no more entries than its chunk has symbols.
pub fn laws<V>()
    ensures { FitsTheSymbols V }
{}
