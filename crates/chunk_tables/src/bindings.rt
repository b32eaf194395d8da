// What scopes bind.
ghost use Rattle.std.specs.Prelude.{◌≡◌, ℕ, List, Option, nat_eq};
ghost use Rattle.std.specs.List.{list_any};
ghost use Rattle.chunk_tables.specs.Bindings.{binds, binds_in, bound_in, nearest, bound_anywhere, root_import};
ghost use Rattle.chunk_tables.specs.Cursor.{to_come};
ghost use Rattle.chunk_tables.specs.Lists.{first_found};
ghost use Rattle.chunk_tables.specs.View.{module_of, symbol_of};

use crate::chunk::Module;
use crate::parts::Symbol;
use crate::scopes::Ancestors;

/// What can tell which symbol a scope binds under a name: a module by going through its symbols, an index of them by a lookup.
/// It is a trait and no closure, since both have to mean the same. Scope and name are passed one by one, as rolldown does.
pub trait Bindings {
    // The number of that symbol in its module.
    ghost bound: { Self → ℕ → List ℕ → Option ℕ };

    /// The symbol that the scope itself binds under the name, whatever the scopes around it do. It is the first one. In checked
    /// tables there is no second: a source has one binding for a name in a scope, or it would be open which one a reference means.
    ///
    /// ```js
    /// var now = 1;
    /// var now = 2; // the same binding, declared again
    /// let then = 1;
    /// let then = 2; // a syntax error
    /// ```
    fn get_binding(&self, scope: u32, name: &[u8]) -> Option<usize>
        ensures { result ≡ bound self.now scope name.now };
}

/// The binding of the name in the first of the scopes that has one. They come nearest first, so what is found shadows all that
/// comes behind it.
pub fn nearest_among<B: Bindings>(
    bindings: &B,
    mut scopes: Ancestors<'_>,
    name: &[u8],
) -> Option<usize>
    ensures { result ≡ first_found (λ s. B.bound bindings.now s name.now) (to_come scopes.entry) }
{
    scopes.find_map(|scope| bindings.get_binding(scope, name))
}

impl Symbol {
    /// Whether the symbol is a binding of the name. A facade binds nothing, though it has a name.
    pub fn binds(&self, name: &[u8]) -> bool
        ensures { result ≡ binds name.now (symbol_of self.now) }
    {
        self.bound && self.name.as_slice() == name
    }

    // Whether it is that in the scope.
    fn binds_in(&self, scope: u32, name: &[u8]) -> bool
        ensures { result ≡ binds_in scope name.now (symbol_of self.now) }
    {
        self.scope == scope && self.binds(name)
    }
}

/// Whether the number is in the list. The lists of a module's own symbols have an order that counts and are short, so they are
/// gone through.
pub fn is_listed(numbers: &[u32], number: usize) -> bool
    ensures { result ≡ list_any (nat_eq number) numbers.now }
{
    numbers.iter().any(|listed| number == *listed as usize)
}

impl Bindings for Module {
    ghost bound = { λ m s n. bound_in (module_of m) s n };

    fn get_binding(&self, scope: u32, name: &[u8]) -> Option<usize> {
        self.symbols
            .iter()
            .position(|symbol| symbol.binds_in(scope, name))
    }
}

impl Module {
    /// What a reference in the scope means by the name. A scope that binds it hides what the scopes around it bind, so the answer
    /// is the nearest binding, from the scope outward, and the root's where no other is.
    ///
    /// ```js
    /// import { now } from './clock.js';
    /// function later(now) {
    ///     return () => now + 1; // the parameter
    /// }
    /// later(now); // the import
    /// ```
    ///
    /// A reference whose target is another symbol cannot come from a source, and no choice of names could make it right.
    pub fn nearest_binding(&self, scope: u32, name: &[u8]) -> Option<usize>
        ensures { result ≡ nearest (module_of self.now) scope name.now }
    {
        nearest_among(self, self.scope_ancestors(scope), name)
    }

    /// Whether some scope of the module binds the name, however deep. A symbol of the module that is renamed has to avoid it: here
    /// `now` cannot become `now$1`, or the last line would read the parameter.
    ///
    /// ```js
    /// import { now } from './clock.js';
    /// const later = (now$1) => now + now$1;
    /// ```
    pub fn has_binding(&self, name: &[u8]) -> bool
        ensures { result ≡ bound_anywhere (module_of self.now) name.now }
    {
        self.symbols.iter().any(|symbol| symbol.binds(name))
    }

    /// Whether the symbol is declared by an import of the module. An import is another module's variable under a name of this one,
    /// so of all bindings it alone can have a link or an alias.
    pub fn is_root_named_import(&self, symbol: usize) -> bool
        ensures { result ≡ root_import (module_of self.now) symbol }
    {
        self.symbol_at(symbol).is_some_and(|row| {
            row.scope == 0 && is_listed(self.named_imports.as_slice(), symbol)
        })
    }
}
