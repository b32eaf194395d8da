// Records in the order of their names.
ghost use Rattle.std.specs.Ordering.{nat_cmp, on, as_partial_cmp};
ghost use Rattle.std.specs.Cmp as Keys;
ghost use Rattle.std.specs.Cmp.Lexicographic.{slice_cmp};
ghost use Rattle.std.specs.Cmp.Rules.{comparing};
ghost use Rattle.std.specs.Cmp.{partial_order_from_own_ties};
ghost use Rattle.std.proofs.Common.{rules};
ghost use Rattle.names.specs.Spelt.{spelt};
ghost use Rattle.keys.specs.Names.{name_alike};

use super::NameRecord;
use std::cmp::Ordering;

// Records compare by their names alone, as the rows of a table by their keys: no two on record have one name, and a counter
// is no part of a record's place in a listing.
impl PartialEq for NameRecord {
    ghost eq = { λ x y. name_alike x.name y.name };

    ghost laws = { Keys.partial_equiv_from_equiv (Prim.search (comparing, rules)) };

    fn eq(&self, other: &NameRecord) -> bool {
        self.name == other.name
    }
}

impl Eq for NameRecord {
    ghost laws = { Prim.search (comparing, rules) };
}

impl Ord for NameRecord {
    ghost cmp = { on (λ r. spelt r.name) (slice_cmp nat_cmp) };

    ghost total = { Prim.search (comparing, rules) };

    ghost matches_partial_cmp = { Prim.search (comparing, rules) };

    ghost matches_eq = { Prim.search (comparing, rules) };

    fn cmp(&self, other: &NameRecord) -> Ordering {
        self.name.cmp(&other.name)
    }
}

impl PartialOrd for NameRecord {
    ghost partial_cmp = { as_partial_cmp (on (λ r. spelt r.name) (slice_cmp nat_cmp)) };

    ghost laws = { partial_order_from_own_ties (Prim.search (comparing, rules)) (Prim.search (comparing, rules)) };

    fn partial_cmp(&self, other: &NameRecord) -> Option<Ordering> {
        Some(self.cmp(other))
    }
}
