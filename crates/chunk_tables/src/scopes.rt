// Scopes and the scopes around them.
ghost use Rattle.std.specs.Prelude.{◌≡◌, map};
ghost use Rattle.chunk_tables.specs.Cursor.{to_come};
ghost use Rattle.chunk_tables.specs.Scopes.{ancestors, parent_in, inner, enclosing, inner_enclosing};
ghost use Rattle.chunk_tables.specs.View.{parent_of, module_of};
ghost use Rattle.std.specs.Iterator.{YieldsFirst, item_count};

use crate::chunk::Module;
use crate::parts::Scope;

// The parent of a scope. Only a smaller number is taken for one, so that the walk ends on tables that were not checked, too.
fn parent_in(scopes: &[Scope], scope: u32) -> Option<u32>
    ensures { result ≡ parent_in (map parent_of scopes.now) scope }
{
    let row = scopes.get(scope as usize)?;
    (row.parent < scope).then_some(row.parent)
}

/// A cursor over a scope and the scopes around it. It steps outward, as a name is looked for, from the nearest scope on. The root
/// comes last, where it counts.
#[derive(Drop)]
pub struct Ancestors<'a> {
    scopes: &'a [Scope],
    root: bool,
    at: Option<u32>,
}

impl<'a> Ancestors<'a> {
    /// A cursor at the scope. `root` tells whether the root counts: it does where any binding is sought, and does not where only
    /// bindings below the chunk's top level are, and the root is that top level.
    pub fn new(scopes: &'a [Scope], root: bool, scope: u32) -> Ancestors<'a>
        ensures { to_come result ≡ ancestors (map parent_of scopes.now) root scope }
    {
        Ancestors {
            scopes,
            root,
            at: Some(scope),
        }
    }
}

impl<'a> Iterator for Ancestors<'a> {
    type Item = u32;

    ghost next_gives = { YieldsFirst to_come };

    ghost remaining = { item_count to_come };

    // The scope that the cursor stands at, from which it goes on to the parent.
    #[tactic(auto, using(crate::proofs::Walks::onward))]
    fn next(&mut self) -> Option<u32> {
        let scope = self.at?;
        if scope == 0 {
            self.at = None;
            return self.root.then_some(0);
        }
        self.at = parent_in(self.scopes, scope);
        Some(scope)
    }
}

impl Module {
    /// Whether the scope's bindings are local ones in the output. Those of functions and blocks are. So are those of a wrapped
    /// module's root, since the module is printed as the body of a function, and they shadow what the chunk has at its top level:
    ///
    /// ```js
    /// const now = 1;
    /// const require_clock = wrap((exports) => {
    ///     const now = 2; // declared at the top of its module
    ///     exports.tick = () => now;
    /// });
    /// ```
    pub fn is_inner(&self, scope: u32) -> bool
        ensures { result ≡ inner (module_of self.now) scope }
    {
        self.wrapped || scope != 0
    }

    /// The scopes in which a name is looked for that stands in this one: itself, then those around it, the root last.
    pub fn scope_ancestors(&self, scope: u32) -> Ancestors<'_>
        ensures { to_come result ≡ enclosing (module_of self.now) scope }
    {
        Ancestors::new(self.scopes.as_slice(), true, scope)
    }

    /// Those of them whose bindings are local ones in the output, and can capture what is meant for the top level: all, where the
    /// module is wrapped, and else all but the root.
    pub fn inner_ancestors(&self, scope: u32) -> Ancestors<'_>
        ensures { to_come result ≡ inner_enclosing (module_of self.now) scope }
    {
        Ancestors::new(self.scopes.as_slice(), self.wrapped, scope)
    }
}
