// How an open session ends, and gives its memory back.
ghost use Rattle.renamer.specs.Released.{Releases};

use super::Renamer;
use session_memory::memory::Memory;

impl Renamer<'_> {
    /// Ends the session, and gives back the memory, as the session left it.
    pub fn into_memory(self) -> Memory
        ensures { Releases self.entry result }
    {
        let Renamer {
            chunk: _,
            policies,
            resolver,
            canonical_names,
            require_names,
            marks,
        } = self;
        Memory {
            records: resolver.into_slots(),
            names: canonical_names.into_slots(),
            inner: policies.into_slots(),
            marks,
            helpers: require_names.into_slots(),
        }
    }
}
