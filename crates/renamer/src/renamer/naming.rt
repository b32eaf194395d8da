// The calls that give names.
ghost use Rattle.std.specs.Prelude.{◌≡◌};
ghost use Rattle.names.specs.Spelt.{spelt};
ghost use Rattle.conflict_resolver.specs.Answers.{answered};
ghost use Rattle.conflict_resolver.specs.Held.{held};
ghost use Rattle.conflict_resolver.specs.Rules.{searched};
ghost use Rattle.policies.specs.File.{file_vetoes};
ghost use Rattle.renamer.specs.Answers.{told_name, told_search, told_end};
ghost use Rattle.renamer.specs.Rooted.{root_of, seen};
ghost use Rattle.renamer.specs.State.{chunk_in, session_of, Keeps};
ghost use Rattle.session_rules.specs.Rules.{root_named, policy_named, name_reserved};
ghost use Rattle.session_rules.specs.Vetoes.{kind_vetoes};

use super::Renamer;
use chunk_tables::kind::RootBindingKind;
use conflict_resolver::policy::Policy;
use conflict_resolver::resolver::Resolved;
use keys::refs::SymbolRef;
use names::name::Name;
use names::refusal::Refusal;

/// A name at the top level of the chunk: given now, or the one that was given before. Who asks twice is told the same name.
#[derive(Clone, Copy)]
pub enum TopLevelName {
    Given(Resolved),
    Already(Name),
}

impl Renamer<'_> {
    /// Puts a name on record, so that nothing is given it.
    pub fn reserve(&mut self, name: &[u8]) -> Result<(), Refusal>
        ensures rules { told_end result (session_of self.new) ≡ name_reserved (chunk_in self.old) (session_of self.old) name.now }
        ensures keeps { Keeps self.old self.new }
    {
        let name = Name::new(name)?;
        self.resolver.reserve(&name)
    }

    /// A name under a policy of the caller's.
    pub fn resolve<P: Policy>(&mut self, base: &[u8], policy: &P) -> Result<Resolved, Refusal>
        ensures rules { told_search result (session_of self.new) ≡ policy_named (P.vetoes policy.now) (chunk_in self.old) (session_of self.old) base.now }
        ensures keeps { Keeps self.old self.new }
    {
        let base = Name::new(base)?;
        self.resolver.resolve(&base, policy)
    }

    /// A name for a helper, which can be called anywhere in the chunk, so that no inner binding may have it.
    pub fn create_conflictless_name(&mut self, hint: &[u8]) -> Result<Resolved, Refusal>
        ensures rules { told_search result (session_of self.new) ≡ policy_named (file_vetoes (chunk_in self.old)) (chunk_in self.old) (session_of self.old) hint.now }
        ensures keeps { Keeps self.old self.new }
    {
        let hint = Name::new(hint)?;
        let policy = self.policies.file();
        self.resolver.resolve(&hint, &policy)
    }

    // The canonical symbol of one, and its own name. It has to stand in a root.
    fn root_of(&self, symbol: SymbolRef) -> Result<(SymbolRef, Name), Refusal>
        ensures { seen result ≡ root_of (chunk_in self.now) symbol }
    {
        let chunk = self.chunk.chunk();
        if chunk.symbol_at(symbol).is_none() {
            return Err(Refusal::NoSuchSymbol);
        }
        let canonical = chunk.canonical_ref_for(symbol);
        let Some(row) = chunk.symbol_at(canonical) else {
            return Err(Refusal::NoSuchSymbol);
        };
        if row.scope != 0 {
            return Err(Refusal::NotInRoot);
        }
        Ok((canonical, Name::new(&row.name)?))
    }

    // A name for a canonical symbol, which is nobody's yet: under its own module's policy, or the whole file's.
    fn resolve_symbol(
        &mut self,
        canonical: SymbolRef,
        kind: RootBindingKind,
        base: &Name,
    ) -> Result<Resolved, Refusal>
        ensures rules { answered result (held self.new.resolver) ≡ searched (kind_vetoes (chunk_in self.old) canonical kind) (spelt base.now) (chunk_in self.old).records (held self.old.resolver) }
        ensures names { self.new.canonical_names ≡ self.old.canonical_names }
        ensures keeps { Keeps self.old self.new }
    {
        match kind {
            RootBindingKind::Authored => {
                let policy = self.policies.own_module(canonical.owner);
                self.resolver.resolve(base, &policy)
            }
            RootBindingKind::Synthesized => {
                let policy = self.policies.file();
                self.resolver.resolve(base, &policy)
            }
        }
    }

    /// A name for a symbol that is printed at the top level of the chunk. It is the canonical symbol's, so all symbols that
    /// are linked to one have one name.
    pub fn add_symbol_in_root_scope(
        &mut self,
        symbol: SymbolRef,
        kind: RootBindingKind,
    ) -> Result<TopLevelName, Refusal>
        ensures rules { told_name result (session_of self.new) ≡ root_named (chunk_in self.old) (session_of self.old) symbol kind }
        ensures keeps { Keeps self.old self.new }
    {
        let (canonical, base) = self.root_of(symbol)?;
        let already = self.canonical_names.name_of(canonical);
        let None = already else {
            return Ok(TopLevelName::Already(already.unwrap()));
        };
        let resolved = self.resolve_symbol(canonical, kind, &base)?;
        self.canonical_names.give(canonical, resolved.name)?;
        Ok(TopLevelName::Given(resolved))
    }
}
