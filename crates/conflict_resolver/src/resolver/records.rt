// What is on record.
ghost use Rattle.std.specs.Prelude.{◌≡◌, ◌+◌, ◌<◌, ◌≤◌, true, ◌||◌, [], length, take, drop, is_some, Some, None, min, vec_len, MatchResult};
ghost use Rattle.std.specs.Option.{option_map};
ghost use Rattle.std.specs.List.{slice_get};
ghost use Rattle.std.specs.List.Sorted.{IsPermutation};
ghost use Rattle.names.specs.Refusals.{number_of};
ghost use Rattle.names.specs.Spelt.{spelt};
ghost use Rattle.keyed_table.specs.Model.{put};
ghost use Rattle.keys.specs.Names.{name_alike, name_under};
ghost use Rattle.keyed_table.specs.Links.{AllBlank};
ghost use Rattle.keyed_table.specs.Listed.{Listed, Sorted};
ghost use Rattle.conflict_resolver.specs.Answers.{settled};
ghost use Rattle.conflict_resolver.specs.Held.{entries_of, held, room, slots as slots_of, rows};
ghost use Rattle.conflict_resolver.specs.Rows.{record_of, name_of};
ghost use Rattle.conflict_resolver.specs.Records.{counter_of, raised, recording, has_free};
ghost use Rattle.conflict_resolver.specs.Rules.{reserved};

use super::{ConflictResolver, NameRecord, RecordSlot};
use keyed_table::table::Table;
use names::name::Name;
use names::refusal::Refusal;

// Sorts the records by their names.
fn by_name(records: &mut [NameRecord])
    ensures shuffled { IsPermutation records.old records.new }
    ensures sorted { Sorted name_of name_under records.new }
{
    records.sort_unstable();
}

// Each change says beside the records that the room stays: it is a fact about two states, which no type can hold. A free
// record is asked for only where one is taken, since a full memory is a memory too.
impl ConflictResolver {
    /// With nothing on record, over the slots, each of which is emptied, whatever an earlier use left in it. As many names
    /// may be on record as `most` says, and no more than there are slots.
    pub fn new(slots: Vec<RecordSlot>, most: usize) -> ConflictResolver
        ensures empty { held result ≡ [] }
        ensures room { room result ≡ min most (vec_len slots) }
        ensures slots { slots_of result ≡ vec_len slots }
        ensures blank { AllBlank result.used.memory }
    {
        let used = Table::new(slots);
        let most = most.min(used.capacity());
        ConflictResolver { used, most }
    }

    /// How many names are on record.
    pub fn len(&self) -> usize
        ensures { result ≡ length (held self.now) }
    {
        self.used.len()
    }

    /// The i-th record, oldest first. Records stay in their places, so a caller can read on from where it stopped.
    pub fn record_at(&self, i: usize) -> Option<NameRecord>
        ensures row { result ≡ slice_get (rows self.now) i }
        ensures recorded { option_map record_of result ≡ slice_get (held self.now) i }
    {
        let entry = self.used.entry(i)?;
        Some(NameRecord {
            name: entry.key,
            counter: entry.value,
        })
    }

    // The counter of a name that is on record.
    pub(crate) fn counter(&self, name: &Name) -> Option<u16>
        ensures { result ≡ counter_of (held self.now) (spelt name.now) }
    {
        self.used.find(name)
    }

    /// Whether a name is on record, and so no search can answer it any more.
    pub fn contains(&self, name: &Name) -> bool
        ensures { result ≡ is_some (counter_of (held self.now) (spelt name.now)) }
    {
        self.counter(name).is_some()
    }

    // Stores the counter of a name: in its record, or in a new one.
    fn store(&mut self, name: &Name, counter: u16)
        requires { is_some (counter_of (held self.old) (spelt name.now)) || has_free (room self.old) (held self.old) ≡ true }
        ensures entries { entries_of self.new ≡ put name_alike (entries_of self.old) name.now counter }
        ensures room { room self.new ≡ room self.old }
        ensures slots { slots_of self.new ≡ slots_of self.old }
    {
        let _ = self.used.insert(*name, counter);
    }

    // Raises the counter of a name that is on record.
    pub(crate) fn raise(&mut self, name: &Name, counter: u16)
        requires recorded { counter_of (held self.old) (spelt name.now) ≡ Some counter }
        requires fits { counter < 9999 }
        ensures records { held self.new ≡ raised (held self.old) (spelt name.now) }
        ensures room { room self.new ≡ room self.old }
        ensures slots { slots_of self.new ≡ slots_of self.old }
    {
        self.store(name, counter + 1);
    }

    // Puts a name on record with 0.
    pub(crate) fn put_on_record(&mut self, name: &Name)
        requires unrecorded { counter_of (held self.old) (spelt name.now) ≡ None }
        requires free { has_free (room self.old) (held self.old) ≡ true }
        ensures records { held self.new ≡ recording (held self.old) (spelt name.now) }
        ensures room { room self.new ≡ room self.old }
        ensures slots { slots_of self.new ≡ slots_of self.old }
    {
        self.store(name, 0);
    }

    /// How many records more can be made: so many searches can still be granted, and none is refused for want of a record.
    pub fn free(&self) -> usize
        ensures { result + length (held self.now) ≡ room self.now }
    {
        self.most - self.len()
    }

    /// Whether one record more can be made. Each search that is granted makes one, and so does each reservation of a name
    /// that is not on record.
    pub fn has_free_record(&self) -> bool
        ensures { result ≡ has_free (room self.now) (held self.now) }
    {
        self.len() < self.most
    }

    /// Keeps searches from answering the name: puts it on record with counter 0, unless it is there. A name that is there
    /// keeps its counter, since a search may have raised it, and is granted even where no record is free.
    pub fn reserve(&mut self, name: &Name) -> Result<(), Refusal>
        ensures rules { settled result (held self.new) ≡ reserved (room self.old) (held self.old) (spelt name.now) }
        ensures room { room self.new ≡ room self.old }
        ensures slots { slots_of self.new ≡ slots_of self.old }
    {
        if !name.is_base() {
            return Err(Refusal::BadName);
        }
        if self.contains(name) {
            return Ok(());
        }
        if !self.has_free_record() {
            return Err(Refusal::NoFreeRecord);
        }
        self.put_on_record(name);
        Ok(())
    }

    // Copies the records to the front of `out`, oldest first.
    fn copy_out(&self, out: &mut [NameRecord])
        requires { length (rows self.now) ≤ length out.old }
        ensures front { take (length (rows self.now)) out.new ≡ rows self.now }
        ensures rest { drop (length (rows self.now)) out.new ≡ drop (length (rows self.now)) out.old }
    {
        for i in 0..self.len() {
            if let Some(record) = self.record_at(i) {
                out[i] = record;
            }
        }
    }

    /// Writes the records to the front of `out`, ascending by the bytes of their names, and answers how many there are.
    pub fn list(&self, out: &mut [NameRecord]) -> Result<usize, Refusal>
        ensures { MatchResult result (Listed name_of name_under (rows self.now) out.old out.new) (λ e. (number_of e ≡ 15) × (length out.old < length (held self.now)) × (out.new ≡ out.old)) }
    {
        let n = self.len();
        if out.len() < n {
            return Err(Refusal::BufferTooShort);
        }
        self.copy_out(out);
        by_name(&mut out[..n]);
        Ok(n)
    }

    /// Gives the memory back as it is. It is not emptied: the next use does that.
    pub fn into_slots(self) -> Vec<RecordSlot>
        ensures { result.items ≡ self.used.memory }
    {
        let ConflictResolver { used, .. } = self;
        used.into_slots()
    }
}
