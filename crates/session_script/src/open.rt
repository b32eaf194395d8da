// A session as long as it is open.
use crate::call::OpenCall;
use crate::print;
use crate::tell::tell;
use chunk_tables::kind::RootBindingKind;
use conflict_resolver::resolver::Resolved;
use hints::require_hint;
use keys::refs::SymbolRef;
use names::refusal::Refusal;
use renamer::nested_scopes::NestedScopeRenamer;
use renamer::renamer::Renamer;
use std::alloc::{AllocError, Global};
use vetoes::{Veto, VetoKind, Vetoes};

// With what `policy` vetoes.
#[derive(Drop)]
pub struct OpenSession<'a> {
    renamer: Renamer<'a>,
    vetoes: Vetoes,
}

impl<'a> OpenSession<'a> {
    // Nothing is vetoed yet.
    pub fn new(heap: Global, renamer: Renamer<'a>) -> OpenSession<'a> {
        OpenSession {
            renamer,
            vetoes: Vetoes::none(heap),
        }
    }

    // A helper for another chunk of this name.
    fn require(&mut self, chunk_name: &[u8]) -> Result<Resolved, Refusal> {
        let hint = require_hint(chunk_name)?;
        self.renamer.create_conflictless_name(hint.as_bytes())
    }

    // The last of so many answers, and at least one.
    fn search(&mut self, base: &[u8], times: u32) -> Result<Resolved, Refusal> {
        for _ in 1..times {
            let _ = self.renamer.resolve(base, &self.vetoes);
        }
        self.renamer.resolve(base, &self.vetoes)
    }

    fn reserve(&mut self, name: &[u8], out: &mut Vec<u8>) -> Result<(), AllocError> {
        match self.renamer.reserve(name) {
            Ok(()) => Ok(()),
            Err(refusal) => print::text_refused(b"reserve", name, refusal, out),
        }
    }

    // Without a kind the chunk tells it.
    fn name_root(
        &mut self,
        symbol: SymbolRef,
        kind: Option<RootBindingKind>,
        out: &mut Vec<u8>,
    ) -> Result<(), AllocError> {
        let kind = kind.unwrap_or(self.renamer.chunk().root_binding_kind(symbol));
        let answer = self.renamer.add_symbol_in_root_scope(symbol, kind);
        print::root(symbol, answer, out)
    }

    fn veto(&mut self, kind: VetoKind, name: &[u8], out: &mut Vec<u8>) -> Result<(), AllocError> {
        match Veto::new(kind, name) {
            Ok(veto) => self.vetoes.add(veto),
            Err(refusal) => print::text_refused(b"veto", name, refusal, out),
        }
    }

    pub fn perform(
        &mut self,
        heap: Global,
        call: OpenCall<'_>,
        out: &mut Vec<u8>,
    ) -> Result<(), AllocError> {
        match call {
            OpenCall::Reserve(name) => self.reserve(name, out),
            OpenCall::Root(symbol, kind) => self.name_root(symbol, kind, out),
            OpenCall::Helper(hint) => {
                let answer = self.renamer.create_conflictless_name(hint);
                print::search(b"helper", hint, answer, out)
            }
            OpenCall::Require(name) => print::search(b"require", name, self.require(name), out),
            OpenCall::Veto(kind, name) => self.veto(kind, name, out),
            OpenCall::VetoAll => {
                self.vetoes.add_all();
                Ok(())
            }
            OpenCall::VetoNone => {
                self.vetoes.clear();
                Ok(())
            }
            OpenCall::Policy(base, times) => {
                print::search(b"policy", base, self.search(base, times), out)
            }
            OpenCall::Records => print::records(heap, &self.renamer, out),
            OpenCall::Tell(call) => tell(heap, &self.renamer, call, out),
        }
    }

    // The names are given, and the vetoes go.
    pub fn start_repair(self) -> NestedScopeRenamer<'a> {
        let OpenSession { renamer, .. } = self;
        renamer.start_repair()
    }
}
