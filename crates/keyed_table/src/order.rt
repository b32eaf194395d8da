// Entries in the order of their keys.
ghost use Rattle.std.specs.Prelude.{Some, refl};
ghost use Rattle.std.specs.Cmp.{partial_equiv_from_equiv, partial_order_from_agreeing_total};
ghost use Rattle.keyed_table.specs.Ranks.{by_keys, one_key, ranked, ties};

use crate::slot::Entry;
use keys::key::OrderedKey;
use std::cmp::Ordering;

// Entries compare by their keys alone: what stands under a key is no part of its place in a listing.
impl<K: OrderedKey, V> PartialEq for Entry<K, V> {
    ghost eq = { λ x y. K.PartialEq.eq x.key y.key };

    ghost laws = { partial_equiv_from_equiv (one_key K.HashKey.tells) };

    fn eq(&self, other: &Entry<K, V>) -> bool {
        self.key == other.key
    }
}

impl<K: OrderedKey, V> Eq for Entry<K, V> {
    ghost laws = { one_key K.HashKey.tells };
}

impl<K: OrderedKey, V> PartialOrd for Entry<K, V> {
    ghost partial_cmp = { λ x y. Some (ranked K.OrderedKey.under x.key y.key) };

    ghost laws = { partial_order_from_agreeing_total (λ x y. ranked K.OrderedKey.under x.key y.key) (by_keys K.OrderedKey.order) (λ _ _. refl) (ties K.OrderedKey.order K.HashKey.tells) };

    fn partial_cmp(&self, other: &Entry<K, V>) -> Option<Ordering> {
        Some(self.cmp(other))
    }
}

impl<K: OrderedKey, V> Ord for Entry<K, V> {
    ghost cmp = { λ x y. ranked K.OrderedKey.under x.key y.key };

    ghost total = { by_keys K.OrderedKey.order };

    ghost matches_partial_cmp = { λ _ _. refl };

    ghost matches_eq = { ties K.OrderedKey.order K.HashKey.tells };

    fn cmp(&self, other: &Entry<K, V>) -> Ordering {
        self.key.cmp(&other.key)
    }
}
