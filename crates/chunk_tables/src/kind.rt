// The kind of a top-level binding, and which symbol has which.
ghost use Rattle.std.specs.Prelude.{◌≡◌};
ghost use Rattle.chunk_tables.specs.Kinds.{is_normal, facade, source_facade, synthesized, kind_of};
ghost use Rattle.chunk_tables.specs.View.{chunk_of, module_of};

use crate::bindings::is_listed;
use crate::chunk::{Chunk, Module};
use crate::parts::ModuleKind;
use keys::refs::SymbolRef;

/// Where a top-level binding has its name from. It decides which names the binding can get, since it decides where references
/// to it can be printed.
#[derive(Clone, Copy, Debug, PartialEq, Eq)]
pub enum RootBindingKind {
    /// From the source, which declares the binding or names it in an import. All references to it are the source's own, so it
    /// may keep a name that inner scopes bind as well:
    ///
    /// ```js
    /// const now = 1;
    /// const later = (now) => now + 1; // the parameter, as the author meant it
    /// ```
    Authored,
    /// From the bundler, which made the binding and prints references to it in whatever scope needs one, where no author looked
    /// out for it. So it gets no name that an inner scope binds. Here an imported `now` is printed through the namespace, which
    /// must not be called as the parameter is:
    ///
    /// ```js
    /// const import_clock$1 = load_clock();
    /// const later = (import_clock) => import_clock$1.now + import_clock;
    /// ```
    Synthesized,
}

impl ModuleKind {
    /// Whether the module is one of the build, with a source that is known.
    pub fn is_normal(&self) -> bool
        ensures { result ≡ is_normal self.now }
    {
        matches!(self, ModuleKind::Normal)
    }
}

impl Module {
    /// Whether the symbol is a facade: the module has it, but the source cannot refer to it. A number without a symbol is none.
    pub fn is_facade_symbol(&self, symbol: usize) -> bool
        ensures { result ≡ facade (module_of self.now) symbol }
    {
        self.symbol_at(symbol).is_some_and(|row| !row.bound)
    }

    // Whether the symbol, if it is a facade, stands for what the source names: an import, the default export, or an export
    // that is missing where it is imported from. Only the source's own references read it then.
    fn is_source_facade(&self, symbol: usize) -> bool
        ensures { result ≡ source_facade (module_of self.now) symbol }
    {
        let is_default = self
            .default_export
            .is_some_and(|own| symbol == own as usize);
        is_listed(self.named_imports.as_slice(), symbol)
            || is_default
            || is_listed(self.shims.as_slice(), symbol)
    }
}

impl Chunk {
    // Whether the bundler made the symbol: a helper of the runtime, or a facade that stands for nothing that a source names.
    // What stands for an external module is called as a source calls what it imports from there.
    fn is_synthesized(&self, symbol: SymbolRef) -> bool
        ensures { result ≡ synthesized (chunk_of self.now) symbol }
    {
        let number = symbol.symbol as usize;
        self.runtime == Some(symbol.owner)
            || self.module_at(symbol.owner as usize).is_some_and(|module| {
                module.kind.is_normal()
                    && module.is_facade_symbol(number)
                    && !module.is_source_facade(number)
            })
    }

    /// The kind of the symbol's canonical one, since that one is declared, and has the name that all linked to it are printed by.
    pub fn root_binding_kind(&self, symbol: SymbolRef) -> RootBindingKind
        ensures { result ≡ kind_of (chunk_of self.now) symbol }
    {
        if self.is_synthesized(self.canonical_ref_for(symbol)) {
            RootBindingKind::Synthesized
        } else {
            RootBindingKind::Authored
        }
    }
}
