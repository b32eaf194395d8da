// The table: a map from keys to values over memory that a caller made.
ghost use Rattle.std.specs.Prelude.{◌≡◌, ◌+◌, ◌%◌, ◌<◌, [], ◌∷◌, ◌++◌, length, is_ok, IfErr, MatchResult, if◌then◌else◌, vec_len, slice_index_or, slice_set};
ghost use Rattle.std.specs.List.{slice_get};
ghost use Rattle.names.specs.Refusals.{number_of};
ghost use Rattle.keyed_table.specs.declared.slot.Entry.{Entry};
ghost use Rattle.keyed_table.specs.Laws.{Laws};
ghost use Rattle.keyed_table.specs.Links.{AllBlank};
ghost use Rattle.keyed_table.specs.Listed.{key_of, Listed};
ghost use Rattle.keyed_table.specs.Model.{lookup, put, Sought, Distinct};
ghost use Rattle.keyed_table.specs.Contents.{room, takes};

use crate::listing::{by_key, copy_out};
use crate::slot::{Entry, Slot, wipe};
use keys::key::{HashKey, OrderedKey};
use names::refusal::Refusal;
use std::marker::Model;

/// A map from keys to values that never asks for memory. Its slots are made by the caller, who thereby says how many keys there
/// can be, and gets them back when the table ends; so a session costs what was made for it, and can be refused, but cannot run
/// out of memory half way. Entries stand in the order in which their keys came, in the first `len` slots.
#[derive(Drop)]
pub struct Table<K: HashKey, V> {
    slots: Vec<Slot<K, V>>,
    len: usize,
}

impl<K: HashKey, V> Model for Table<K, V> {
    ghost use Rattle.keyed_table.specs.Contents.{Contents};

    ghost Value = { Contents K V };

    ghost use Rattle.keyed_table.specs.Links.{Wired, held};

    ghost view = { λ t. record { entries = held t.slots.items t.len; memory = t.slots.items } };

    ghost invariant = { λ t. Wired K.hashed t.slots.items t.len };
}

impl<K: HashKey, V> Table<K, V> {
    /// How many entries there are.
    pub fn len(&self) -> usize
        ensures { result ≡ length self.now.entries }
    {
        self.len
    }

    /// For how many entries there is room in all. It is the number of slots, and never changes.
    pub fn capacity(&self) -> usize
        ensures { result ≡ room self.now }
    {
        self.slots.len()
    }

    /// For how many more keys there is room. A key that is there needs none: it keeps its place.
    pub fn free(&self) -> usize
        ensures { result + length self.now.entries ≡ room self.now }
    {
        self.capacity() - self.len
    }

    /// Ends the table and gives its slots back, so that their owner can use them again. They are as the table left them, since
    /// `new` empties what it is handed.
    pub fn into_slots(self) -> Vec<Slot<K, V>>
        ensures { result.items ≡ self.memory }
    {
        let Table { slots, .. } = self;
        slots
    }
}

impl<K: HashKey + Copy, V: Copy> Table<K, V> {
    /// A table without entries. What the slots held does not matter, for each is emptied: memory of an earlier table will do as
    /// it is.
    pub fn new(mut slots: Vec<Slot<K, V>>) -> Table<K, V>
        ensures entries { result.entries ≡ [] }
        ensures room { room result ≡ vec_len slots }
        ensures blank { AllBlank result.memory }
    {
        wipe(&mut slots);
        Table { slots, len: 0 }
    }

    /// The i-th entry, in the order in which the keys came. So all entries can be read without a buffer, and the first i of
    /// them stay the first i, whatever comes.
    pub fn entry(&self, i: usize) -> Option<Entry<K, V>>
        ensures { result ≡ slice_get self.now.entries i }
    {
        self.slots[..self.len].get(i)?.entry
    }

    // The place of the key, whose hash is handed over, so that a change need not make it twice. The walk ends since each link
    // leads to an older place, which no iterator can be told.
    fn place_of(&self, key: &K, hash: u32) -> Option<usize>
        requires { hash ≡ K.hashed key.now }
        ensures sought { Sought K.eq self.now.entries key.now result }
        ensures distinct { Distinct self.now.entries }
    {
        if self.slots.is_empty() {
            return None;
        }
        let mut at = self.slots[hash as usize % self.slots.len()].head;
        while let Some(i) = at {
            let slot = &self.slots[i];
            if slot.is_for(key, hash) {
                return Some(i);
            }
            at = slot.next;
        }
        None
    }

    /// The value that was last put under the key, if any was.
    pub fn find(&self, key: &K) -> Option<V>
        ensures { result ≡ lookup K.eq self.now.entries key.now }
    {
        let entry = self.entry(self.place_of(key, key.hash())?)?;
        Some(entry.value)
    }

    // Puts the entry in the place of one with its key.
    fn replace(&mut self, i: usize, entry: Entry<K, V>)
        requires place { i < length self.old.entries }
        requires key { (d : Entry K V) → (slice_index_or self.old.entries i d).key ≡ entry.key }
        ensures entries { self.new.entries ≡ slice_set self.old.entries i entry }
        ensures room { room self.new ≡ room self.old }
    {
        self.slots[i].entry = Some(entry);
    }

    // Puts the entry behind the others, and at the front of its bucket's chain.
    fn append(&mut self, entry: Entry<K, V>, hash: u32)
        requires hash { hash ≡ K.hashed entry.key }
        requires space { length self.old.entries < room self.old }
        requires fresh { Distinct (self.old.entries ++ entry ∷ []) }
        ensures entries { self.new.entries ≡ self.old.entries ++ entry ∷ [] }
        ensures room { room self.new ≡ room self.old }
    {
        let len = self.len;
        let home = hash as usize % self.slots.len();
        let next = self.slots[home].head;
        let slot = &mut self.slots[len];
        slot.entry = Some(entry);
        slot.hash = hash;
        slot.next = next;
        self.slots[home].head = Some(len);
        self.len = len + 1;
    }

    /// Puts the value under the key, in the place of what was there, or else behind all entries. Refused with 10 where the key
    /// is new and no slot is free; then not even a slot has changed, and a caller who looked ahead with `free` is not refused.
    pub fn insert(&mut self, key: K, value: V) -> Result<(), Refusal>
        ensures result { is_ok result ≡ takes K.eq self.old key }
        ensures entries { self.new.entries ≡ (if is_ok result then put K.eq self.old.entries key value else self.old.entries) }
        ensures room { room self.new ≡ room self.old }
        ensures refused { IfErr result (λ e. (number_of e ≡ 10) × (self.new ≡ self.old)) }
    {
        let entry = Entry { key, value };
        let hash = key.hash();
        if let Some(i) = self.place_of(&key, hash) {
            self.replace(i, entry);
            return Ok(());
        }
        if self.free() == 0 {
            return Err(Refusal::NoFreeRecord);
        }
        self.append(entry, hash);
        Ok(())
    }
}

impl<K: OrderedKey + Copy, V: Copy> Table<K, V> {
    /// Writes the entries to the front of `out`, from the lowest key to the highest, and answers how many there are. The buffer
    /// is the caller's, since a table takes nothing from the heap. Refused with 15 where it is too short, and then unchanged:
    /// half a listing could be taken for a whole one.
    pub fn list(&self, out: &mut [Entry<K, V>]) -> Result<usize, Refusal>
        ensures { MatchResult result (Listed key_of K.under self.now.entries out.old out.new) (λ e. (number_of e ≡ 15) × (length out.old < length self.now.entries) × (out.new ≡ out.old)) }
    {
        let n = self.len;
        if out.len() < n {
            return Err(Refusal::BufferTooShort);
        }
        copy_out(&self.slots[..n], out);
        by_key(&mut out[..n]);
        Ok(n)
    }
}

/// Does nothing when it runs. Whoever calls it knows from its contract that a table is a map: the key that was put leads to
/// its value, and every other key to what it led to before. It is said of `lookup` and `put`, of which `find` and `insert` speak.
pub fn laws<K: HashKey, V>()
    ensures { Laws K V K.eq }
{}
