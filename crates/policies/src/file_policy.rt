// The policy of synthesized symbols and of helpers: no candidate must be an inner name.
ghost use Rattle.std.specs.Prelude.{◌≡◌};
ghost use Rattle.chunk_tables.specs.View.{chunk_of};
ghost use Rattle.policies.specs.File.{file_vetoes};

use crate::inner_names::InnerBindingNames;
use conflict_resolver::policy::Policy;
use names::name::Name;

/// The policy of a whole file. It vetoes the bare name too: what the bundler makes was not written by an author who could
/// have meant to shadow it.
#[derive(Clone, Copy)]
pub struct FilePolicy<'s, 'a> {
    names: &'s InnerBindingNames<'a>,
}

impl<'s, 'a> FilePolicy<'s, 'a> {
    pub(crate) fn new(names: &'s InnerBindingNames<'a>) -> FilePolicy<'s, 'a>
        ensures { result.names.now ≡ names.now }
    {
        FilePolicy { names }
    }
}

impl Policy for FilePolicy<'_, '_> {
    ghost vetoes = { λ p c bare. file_vetoes (chunk_of p.names.now.chunk.now) c bare };

    fn vetoed(&self, candidate: &Name, _bare: bool) -> bool {
        self.names.contains(candidate)
    }
}
