// The slots of a table's memory, and the entries that they hold.
ghost use Rattle.std.specs.Prelude.{◌≡◌, ◌==◌, ◌&&◌, false, MatchOption};
ghost use Rattle.keyed_table.specs.Links.{AllBlank, blank};

use keys::key::HashKey;

/// A key and the value under it, as a table tells them.
#[derive(Clone, Copy, Default)]
pub struct Entry<K, V> {
    /// The key. Two entries of one table never have the same.
    pub key: K,
    /// What was last put under it.
    pub value: V,
}

/// A place for one entry with its key's hash, and two links. Slot i has the i-th entry; `head` leads to the newest entry of bucket
/// i, and `next` from the i-th entry to the next older one of its bucket. Links are places in the same memory and no pointers, so the memory can be
/// handed over and back. What slots say of each other is the table's to keep, and no caller's to write.
#[derive(Clone, Copy)]
pub struct Slot<K, V> {
    // The hash of the entry's key, so that a walk along a bucket need not read the keys of others. It is 0 where none is. It
    // lies in front, where the `next` of the slot before it ends: keys that came one after another are walked fastest so.
    pub(crate) hash: u32,
    pub(crate) entry: Option<Entry<K, V>>,
    pub(crate) head: Option<usize>,
    pub(crate) next: Option<usize>,
}

impl<K, V> Slot<K, V> {
    /// A slot to make memory of, in the number that the table is to have room for.
    pub fn empty() -> Slot<K, V>
        ensures { result ≡ blank }
    {
        Slot {
            hash: 0,
            entry: None,
            head: None,
            next: None,
        }
    }
}

impl<K: HashKey + Copy, V: Copy> Slot<K, V> {
    // Whether the slot has an entry of this key and this hash. Hashes are compared first: of the keys in a bucket few have the
    // same, and to compare two long keys takes time.
    pub(crate) fn is_for(&self, key: &K, hash: u32) -> bool
        ensures { MatchOption self.now.entry (result ≡ false) (λ e. result ≡ (self.now.hash == hash && K.eq e.key key.now)) }
    {
        self.hash == hash && self.entry.as_ref().is_some_and(|entry| entry.key == *key)
    }
}

// Empties each slot. `fill` would clone one slot, and nothing is known of a clone of a `K`; `fill_with` gets no proof.
pub(crate) fn wipe<K: Copy, V: Copy>(slots: &mut [Slot<K, V>])
    ensures { AllBlank slots.new }
{
    for slot in slots.iter_mut() {
        *slot = Slot::empty();
    }
}
