// How names compare: by their texts.
ghost use Rattle.std.specs.Prelude.{◌≡◌, Decides};
ghost use Rattle.std.specs.Ordering.{nat_cmp, on, as_partial_cmp};
ghost use Rattle.std.specs.Str.{bytes_eq};
ghost use Rattle.std.specs.Cmp as Keys;
ghost use Rattle.std.specs.Cmp.Lexicographic.{slice_cmp};
ghost use Rattle.std.specs.Cmp.Rules.{comparing};
ghost use Rattle.std.specs.Cmp.{partial_order_from_own_ties};
ghost use Rattle.std.proofs.Common.{rules};
ghost use Rattle.names.specs.Spelt.{spelt};

use super::Name;
use std::cmp::Ordering;

// Not derived, so that the zeros behind a text need not be read. Names with one text are one value, so nothing is lost.
impl PartialEq for Name {
    ghost eq = { λ x y. bytes_eq (spelt x) (spelt y) };

    ghost laws = { Keys.partial_equiv_from_equiv (Prim.search (comparing, rules)) };

    fn eq(&self, other: &Name) -> bool
        ensures { Decides result (self.now ≡ other.now) × (result ≡ bytes_eq (spelt self.now) (spelt other.now)) }
    {
        self.is(other.as_bytes())
    }
}

impl Eq for Name {
    ghost laws = { Prim.search (comparing, rules) };
}

// By the first byte that differs, and a text stands below each that goes on from it.
impl Ord for Name {
    ghost cmp = { on spelt (slice_cmp nat_cmp) };

    ghost total = { Prim.search (comparing, rules) };

    ghost matches_partial_cmp = { Prim.search (comparing, rules) };

    ghost matches_eq = { Prim.search (comparing, rules) };

    fn cmp(&self, other: &Name) -> Ordering {
        self.as_bytes().cmp(&other.as_bytes())
    }
}

impl PartialOrd for Name {
    ghost partial_cmp = { as_partial_cmp (on spelt (slice_cmp nat_cmp)) };

    ghost laws = { partial_order_from_own_ties (Prim.search (comparing, rules)) (Prim.search (comparing, rules)) };

    fn partial_cmp(&self, other: &Name) -> Option<Ordering> {
        Some(self.cmp(other))
    }
}
