// The policies at both ends, and tests of the library on examples: each refusal, and what is left after it.
#![tactic(auto)]

use conflict_resolver::policy::Policy;
use names::name::Name;

#[cfg(test)]
mod tests;

// Vetoes every candidate, or none.
pub struct Constant<const VETOES: bool>;

impl<const VETOES: bool> Policy for Constant<VETOES> {
    ghost vetoes = { λ _ _ _. VETOES };

    fn vetoed(&self, _candidate: &Name, _bare: bool) -> bool {
        VETOES
    }
}
