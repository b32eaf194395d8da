// The type of a module with an index.
ghost use Rattle.chunk_tables.specs.View.{module_of};
ghost use Rattle.binding_index.specs.Indexes.{Indexes};

use chunk_tables::chunk::Module;
use keyed_table::table::Table;
use keys::binding_key::Binding;

pub mod lookups;

/// A module that finds bindings by a lookup. To find what a reference means each scope around it is asked for the name, and a
/// module alone goes through all of its symbols to answer; over many references that takes the square of their number. The
/// index has the first symbol that each scope binds under each name. It is only there to be quick: a module for which there was
/// no memory, and a name that is too long for a key, are answered by the module's own walk, and a map of `std` would not spare
/// that.
#[derive(Drop)]
pub struct IndexedModule<'a> {
    /// The module itself, for all else that is asked of it.
    pub module: &'a Module,
    index: Option<Table<Binding, usize>>,
    ghost indexed: { ∥ Indexes (module_of «module».now).symbols index ∥₁ },
}
