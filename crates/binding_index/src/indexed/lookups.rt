// What the index answers.
ghost use Rattle.std.specs.Prelude.{◌≡◌};
ghost use Rattle.chunk_tables.specs.Bindings.{bound_in, nearest};
ghost use Rattle.chunk_tables.specs.View.{module_of};

use super::IndexedModule;
use crate::build::index_of;
use chunk_tables::bindings::{Bindings, nearest_among};
use chunk_tables::chunk::Module;
use keys::binding_key::Binding;
use names::name::Name;
use std::alloc::Global;

impl<'a> Bindings for IndexedModule<'a> {
    ghost bound = { λ m s n. bound_in (module_of m.module.now) s n };

    // A name that is too long for a key, and any name where there is no index, is left to the module's own walk.
    fn get_binding(&self, scope: u32, name: &[u8]) -> Option<usize> {
        if let Some(table) = &self.index
            && let Ok(name) = Name::new(name)
        {
            return table.find(&Binding { scope, name });
        }
        self.module.get_binding(scope, name)
    }
}

impl<'a> IndexedModule<'a> {
    /// The module with an index of its bindings, or without, where the heap has no room for one. A caller sees no difference but
    /// the time.
    pub fn new(heap: Global, module: &'a Module) -> IndexedModule<'a>
        ensures { result.module.now ≡ «module».now }
    {
        let index = index_of(heap, module.symbols.as_slice());
        IndexedModule { module, index }
    }

    /// The symbol that a reference in the scope means by the name, as the module's `nearest_binding` answers it. What the two
    /// share is `nearest_among`; a method of the trait would have to be told the scopes.
    pub fn nearest_binding(&self, scope: u32, name: &[u8]) -> Option<usize>
        ensures { result ≡ nearest (module_of self.now.module.now) scope name.now }
    {
        nearest_among(self, self.module.scope_ancestors(scope), name)
    }
}
