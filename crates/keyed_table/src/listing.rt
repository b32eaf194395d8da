// How entries are put into the order of their keys.
ghost use Rattle.std.specs.Prelude.{◌≡◌, ◌≤◌, length, take, drop};
ghost use Rattle.std.specs.List.Sorted.{IsPermutation};
ghost use Rattle.keyed_table.specs.Links.{Full, held};
ghost use Rattle.keyed_table.specs.Listed.{key_of, Sorted};

use crate::slot::{Entry, Slot};
use keys::key::OrderedKey;

// Copies what the slots hold to the front of `out`. By place, since a loop over `zip` with `iter_mut` leaves open what the
// rows are when it ends.
pub(crate) fn copy_out<K: Copy, V: Copy>(slots: &[Slot<K, V>], out: &mut [Entry<K, V>])
    requires full { Full slots.now (length slots.now) }
    requires fits { length slots.now ≤ length out.old }
    ensures front { take (length slots.now) out.new ≡ held slots.now (length slots.now) }
    ensures rest { drop (length slots.now) out.new ≡ drop (length slots.now) out.old }
{
    for (i, slot) in slots.iter().enumerate() {
        if let Some(entry) = slot.entry {
            out[i] = entry;
        }
    }
}

// Sorts the entries by their keys. Entries are compared as they stand, since a sort by a key would copy two keys each time.
pub(crate) fn by_key<K: OrderedKey, V>(entries: &mut [Entry<K, V>])
    ensures shuffled { IsPermutation entries.old entries.new }
    ensures sorted { Sorted key_of K.under entries.new }
{
    entries.sort_unstable();
}
