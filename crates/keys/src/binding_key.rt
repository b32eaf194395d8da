// Bindings as keys.
ghost use Rattle.keys.specs.Bindings.{binding_hash};
ghost use Rattle.keys.specs.BindingEquality.{binding_decides};

use crate::key::HashKey;
use crate::mixing::mix;
use names::name::Name;

/// A name in a scope: the key under which the symbol is found that the scope binds by this name. It takes both to tell a
/// binding, since scopes bind one name each for itself:
///
/// ```js
/// const now = 1;
/// function tick() {
///     const now = 2; // a binding of its own
///     return now;
/// }
/// ```
#[derive(Clone, Copy, PartialEq, Eq)]
pub struct Binding {
    /// The number of the scope in its module.
    pub scope: u32,
    /// The name as the source has it, not one that was given.
    pub name: Name,
}

impl HashKey for Binding {
    ghost hashed = { binding_hash };

    ghost tells = { binding_decides };

    fn hash(&self) -> u32 {
        mix(self.name.hash(), self.scope)
    }
}
