// Name records in memory that the caller makes, hands over and gets back.
ghost use Rattle.std.specs.Prelude.{◌≤◌, length};
ghost use Rattle.keyed_table.specs.Contents.{room};
ghost use Rattle.conflict_resolver.specs.Rows.{Once};

use keyed_table::slot::Slot;
use keyed_table::table::Table;
use names::name::Name;

mod order;
pub mod records;
pub mod search;

pub use search::Resolved;

/// A name on record. Its counter is how far the search for its numbered forms has come: a search for the name as a base
/// raises it, and goes on at that number.
#[derive(Clone, Copy, Default)]
pub struct NameRecord {
    pub name: Name,
    pub counter: u16,
}

/// The memory of one record.
pub type RecordSlot = Slot<Name, u16>;

/// The records of all names that are taken, reserved or found. It works in memory that is handed over and given back, so
/// that its room is settled before the first name and a search never runs out of it half way.
#[derive(Drop)]
pub struct ConflictResolver {
    used: Table<Name, u16>,
    // How many names may be on record; the memory has room for as many.
    most: usize,
    ghost within: { length used.entries ≤ most },
    ghost fits: { most ≤ room used },
    ghost once: { ∥ Once used.entries ∥₁ },
}
