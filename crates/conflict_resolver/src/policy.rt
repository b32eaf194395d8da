// Which candidates a search must not take.
ghost use Rattle.std.specs.Prelude.{◌≡◌, ℕ, Bool, List};
ghost use Rattle.names.specs.Spelt.{spelt};

use names::name::Name;

/// Which names a symbol must not get although they are not on record. In `let a = 1; function f(b) { return a + b; }` the
/// outer symbol must not become `b`, or `f` would read its parameter twice. A trait and no closure, since the laws of the
/// search speak of what a policy vetoes.
pub trait Policy {
    // Whether the candidate with this text is vetoed, as the base itself (true) or as a numbered form of it (false).
    ghost vetoes: { Self → List ℕ → Bool → Bool };

    /// Whether the candidate is vetoed. `bare` tells that it is the base itself: the source may have chosen that, shadowing
    /// and all, and never chose a numbered form. The two stay apart: most policies ask the name alone.
    fn vetoed(&self, candidate: &Name, bare: bool) -> bool
        ensures { result ≡ vetoes self.now (spelt candidate.now) bare };
}
