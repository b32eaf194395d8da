// The memory of a session. The caller makes it, hands it over, and gets it back.
ghost use Rattle.std.specs.Prelude.{◌≡◌, IfOk};
ghost use Rattle.session_memory.specs.Memory.{sizes_of};

use crate::sizes::MemorySizes;
use conflict_resolver::resolver::RecordSlot;
use keyed_table::slot::Slot;
use keys::refs::{ChunkIdx, SymbolRef};
use names::name::Name;
use std::alloc::{AllocError, Global};

/// The memory of the name that a symbol is given.
pub type NameSlot = Slot<SymbolRef, Name>;

/// The memory of one name in the set of inner names: the names are the keys, and nothing stands under them.
pub type InnerNameSlot = Slot<Name, ()>;

/// The memory of the name of another chunk's helper.
pub type HelperSlot = Slot<ChunkIdx, Name>;

/// What a session keeps its records and names in. Its length never changes, so memory that was enough at the start is
/// enough to the end, and one session after another can be given the same.
#[derive(Drop)]
pub struct Memory {
    pub records: Vec<RecordSlot>,
    pub names: Vec<NameSlot>,
    pub inner: Vec<InnerNameSlot>,
    /// Which modules are repaired.
    pub marks: Vec<bool>,
    pub helpers: Vec<HelperSlot>,
}

impl Memory {
    /// Memory of these sizes. A session empties what it is given, so only the sizes count.
    pub fn make(heap: Global, sizes: MemorySizes) -> Result<Memory, AllocError>
        ensures { IfOk result (λ m. sizes_of m ≡ sizes) }
    {
        Ok(Memory {
            records: vec![in heap; RecordSlot::empty(); sizes.records]?,
            names: vec![in heap; NameSlot::empty(); sizes.names]?,
            inner: vec![in heap; InnerNameSlot::empty(); sizes.inner]?,
            marks: vec![in heap; false; sizes.marks]?,
            helpers: vec![in heap; HelperSlot::empty(); sizes.helpers]?,
        })
    }

    /// How many entries there is room for.
    pub fn sizes(&self) -> MemorySizes
        ensures { result ≡ sizes_of self.now }
    {
        MemorySizes {
            records: self.records.len(),
            names: self.names.len(),
            inner: self.inner.len(),
            marks: self.marks.len(),
            helpers: self.helpers.len(),
        }
    }
}
