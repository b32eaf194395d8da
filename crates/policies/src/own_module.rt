// The policy of authored symbols: a numbered form must not be a name that the symbol's own module binds.
ghost use Rattle.std.specs.Prelude.{◌≡◌};
ghost use Rattle.chunk_tables.specs.View.{chunk_of};
ghost use Rattle.policies.specs.OwnModule.{own_module_vetoes};

use chunk_tables::chunk::Chunk;
use conflict_resolver::policy::Policy;
use names::name::Name;

/// The policy of a symbol that an author named. A bare name may be shadowed, as the author wrote that shadowing; a numbered form
/// was not in the source, so whatever has its name there does not mean the symbol:
///
/// ```js
/// import { now } from './clock.js'; // `now` is taken, and `now$1` is sought for this one
/// function page(now$1) { return now$1 + now(); } // `now$1()` would call the parameter
/// ```
#[derive(Clone, Copy)]
pub struct OwnModule<'a> {
    chunk: &'a Chunk,
    owner: u32,
}

impl<'a> OwnModule<'a> {
    /// Of the module with a number.
    pub fn new(chunk: &'a Chunk, owner: u32) -> OwnModule<'a>
        ensures { (result.chunk.now ≡ chunk.now) × (result.owner ≡ owner) }
    {
        OwnModule { chunk, owner }
    }
}

impl Policy for OwnModule<'_> {
    ghost vetoes = { λ p c bare. own_module_vetoes (chunk_of p.chunk.now) p.owner c bare };

    fn vetoed(&self, candidate: &Name, bare: bool) -> bool {
        !bare
            && self
                .chunk
                .module_at(self.owner as usize)
                .is_some_and(|owner| owner.has_binding(candidate.as_bytes()))
    }
}
