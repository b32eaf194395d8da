// The checks of symbols and of references, which share an index of the bindings.
#![tactic(auto)]

ghost use Rattle.std.specs.Prelude.{◌≡◌};

use binding_index::indexed::IndexedModule;
use chunk_tables::chunk::{Chunk, Module};
use std::alloc::Global;

pub mod references;
pub mod symbols;

// What one row of a module is checked against: the whole chunk, for links and aliases, and the bindings of the module.
#[derive(Drop)]
struct ModuleCheck<'c, 'm> {
    chunk: &'c Chunk,
    indexed: IndexedModule<'m>,
}

impl<'c, 'm> ModuleCheck<'c, 'm> {
    fn new(heap: Global, chunk: &'c Chunk, module: &'m Module) -> ModuleCheck<'c, 'm>
        ensures chunk { result.chunk.now ≡ chunk.now }
        ensures indexed { result.indexed.module.now ≡ «module».now }
    {
        ModuleCheck {
            chunk,
            indexed: IndexedModule::new(heap, module),
        }
    }
}
