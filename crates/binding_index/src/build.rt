// How an index is made.
ghost use Rattle.std.specs.Prelude.{◌≡◌, [], map, OnOk};
ghost use Rattle.chunk_tables.specs.View.{symbol_of};
ghost use Rattle.binding_index.specs.Indexes.{KeyOf, Noted, Finds, Indexes};

use chunk_tables::parts::Symbol;
use keyed_table::slot::Slot;
use keyed_table::table::{Table, laws};
use keys::binding_key::Binding;
use names::name::Name;
use names::refusal::Refusal;
use std::alloc::Global;

// The key of a symbol. One that is not bound has none, nor has one whose name is too long for a key.
fn key_of(symbol: &Symbol) -> Option<Binding>
    ensures { KeyOf (symbol_of symbol.now) result }
{
    if !symbol.bound {
        return None;
    }
    let name = Name::new(symbol.name.as_slice()).ok()?;
    Some(Binding {
        scope: symbol.scope,
        name,
    })
}

// Puts a number under a key. A number that is there already stays.
#[tactic(auto, using(crate::proofs::Notes::noted_put))]
fn note(table: &mut Table<Binding, usize>, key: Binding, number: usize) -> Result<(), Refusal>
    ensures { OnOk result (Noted table.old.entries key number table.new.entries) }
{
    laws::<Binding, usize>();
    let first = table.find(&key).unwrap_or(number);
    table.insert(key, first)
}

// Notes the number of each symbol, from the first on.
fn fill(table: &mut Table<Binding, usize>, symbols: &[Symbol]) -> Result<(), Refusal>
    requires { table.old.entries ≡ [] }
    ensures { OnOk result (Finds (map symbol_of symbols.now) table.new) }
{
    for (i, symbol) in symbols.iter().enumerate() {
        if let Some(key) = key_of(symbol) {
            note(table, key, i)?;
        }
    }
    Ok(())
}

// An index of the symbols, unless there is no memory for it.
pub(crate) fn index_of(heap: Global, symbols: &[Symbol]) -> Option<Table<Binding, usize>>
    ensures { Indexes (map symbol_of symbols.now) result }
{
    let slots = vec![in heap; Slot::empty(); symbols.len()].ok()?;
    let mut table = Table::new(slots);
    fill(&mut table, symbols).ok()?;
    Some(table)
}
