// How the state begins, what it tells, and how it ends.
ghost use Rattle.std.specs.Prelude.{◌≡◌};
ghost use Rattle.renamer.specs.Released.{Releases};
ghost use Rattle.renamer.specs.State.{Same};

use super::NestedScopeRenamer;
use crate::renamer::Renamer;
use session_memory::memory::Memory;

impl<'a> Renamer<'a> {
    /// Ends the naming of roots, and begins the repair.
    pub fn start_repair(self) -> NestedScopeRenamer<'a>
        ensures { Same self.entry result.renamer }
    {
        let rooted = self.named();
        NestedScopeRenamer {
            renamer: self,
            rooted,
        }
    }
}

impl<'a> NestedScopeRenamer<'a> {
    /// The session, to be read: what an open session tells, this one tells too.
    pub fn renamer(&self) -> &Renamer<'a>
        ensures { result.now ≡ self.now.renamer }
    {
        &self.renamer
    }

    /// Ends the session, and gives back the memory, as the session left it.
    pub fn into_memory(self) -> Memory
        ensures { Releases self.entry.renamer result }
    {
        let NestedScopeRenamer { renamer, .. } = self;
        renamer.into_memory()
    }
}
