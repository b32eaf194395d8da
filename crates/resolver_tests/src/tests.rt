use crate::Constant;
use conflict_resolver::policy::Policy;
use conflict_resolver::resolver::{ConflictResolver, NameRecord, RecordSlot};
use keyed_table::slot::Slot;
use keyed_table::table::Table;
use keys::refs::ChunkIdx;
use names::name::Name;
use names::refusal::Refusal;
use std::test::Fail;

const NOTHING: Constant<false> = Constant;

const EVERYTHING: Constant<true> = Constant;

fn name(text: &[u8]) -> Result<Name, Fail> {
    Name::new(text).map_err(|_| Fail::new("a name of at most 105 bytes"))
}

fn resolver(rt: &HostRuntime, records: usize) -> Result<ConflictResolver, Fail> {
    let slots = vec![in rt.alloc(); RecordSlot::empty(); records]?;
    Ok(ConflictResolver::new(slots, records))
}

// The number of the refusal, unless a name is granted.
fn refusal_of<P: Policy>(names: &mut ConflictResolver, base: &Name, policy: &P) -> Option<u8> {
    names.resolve(base, policy).err().map(Refusal::number)
}

#[test]
fn a_base_has_1_to_100_bytes(rt: HostRuntime) -> Result<(), Fail> {
    let mut names = resolver(&rt, 4)?;
    assert_eq!(rt; refusal_of(&mut names, &name(b"")?, &NOTHING), Some(7));
    assert_eq!(rt;
        refusal_of(&mut names, &name(&[b'a'; 101])?, &NOTHING),
        Some(7)
    );
    assert_eq!(rt; names.len(), 0);
    assert_eq!(rt;
        refusal_of(&mut names, &name(&[b'a'; 100])?, &NOTHING),
        None
    );
    assert_eq!(rt; names.len(), 1);
    Ok(())
}

#[test]
fn a_name_has_at_most_105_bytes(rt: HostRuntime) -> Result<(), Fail> {
    assert!(rt; Name::new(&[b'a'; 105]).is_ok());
    assert_eq!(rt; Name::new(&[b'a'; 106]).err().map(Refusal::number), Some(7));
    Ok(())
}

#[test]
fn a_new_name_needs_a_free_record(rt: HostRuntime) -> Result<(), Fail> {
    let mut names = resolver(&rt, 1)?;
    let a = name(b"a")?;
    assert_eq!(rt; refusal_of(&mut names, &a, &NOTHING), None);
    assert_eq!(rt; refusal_of(&mut names, &a, &NOTHING), Some(10));
    assert_eq!(rt; names.record_at(0).map(|row| row.counter), Some(0));
    assert!(rt; names.record_at(1).is_none());
    Ok(())
}

#[test]
fn a_reservation_needs_a_name_and_a_free_record(rt: HostRuntime) -> Result<(), Fail> {
    let mut names = resolver(&rt, 1)?;
    let a = name(b"a")?;
    assert_eq!(rt; names.reserve(&name(b"")?), Err(Refusal::BadName));
    assert_eq!(rt; names.reserve(&a), Ok(()));
    assert_eq!(rt; names.reserve(&a), Ok(()));
    assert_eq!(rt; names.reserve(&name(b"b")?), Err(Refusal::NoFreeRecord));
    assert!(rt; names.contains(&a));
    assert_eq!(rt; names.len(), 1);
    Ok(())
}

#[test]
fn both_limits(rt: HostRuntime) -> Result<(), Fail> {
    let mut names = resolver(&rt, 2)?;
    let a = name(b"a")?;
    assert_eq!(rt; names.reserve(&a), Ok(()));
    let mut last = None;
    for _ in 0..5903 {
        last = refusal_of(&mut names, &a, &EVERYTHING);
    }
    assert_eq!(rt; last, Some(12));
    assert_eq!(rt; refusal_of(&mut names, &a, &EVERYTHING), Some(11));
    Ok(())
}

#[test]
fn a_listing_needs_room(rt: HostRuntime) -> Result<(), Fail> {
    let mut names = resolver(&rt, 2)?;
    let a = name(b"a")?;
    let b = name(b"b")?;
    assert_eq!(rt; names.reserve(&b), Ok(()));
    assert_eq!(rt; names.reserve(&a), Ok(()));
    let row = NameRecord {
        name: name(b"c")?,
        counter: 7,
    };
    let mut short = [row; 1];
    assert_eq!(rt; names.list(&mut short), Err(Refusal::BufferTooShort));
    assert_eq!(rt; short[0].counter, 7);
    let mut rows = [row; 3];
    assert_eq!(rt; names.list(&mut rows), Ok(2));
    assert!(rt; rows[0].name.is(b"a"));
    assert!(rt; rows[1].name.is(b"b"));
    assert!(rt; rows[2].name.is(b"c"));
    Ok(())
}

#[test]
fn a_full_table_still_replaces(rt: HostRuntime) -> Result<(), Fail> {
    let slots = vec![in rt.alloc(); Slot::empty(); 2]?;
    let mut table: Table<ChunkIdx, u32> = Table::new(slots);
    assert_eq!(rt; table.insert(ChunkIdx(5), 1), Ok(()));
    assert_eq!(rt; table.insert(ChunkIdx(3), 2), Ok(()));
    assert_eq!(rt; table.insert(ChunkIdx(4), 3), Err(Refusal::NoFreeRecord));
    assert_eq!(rt; table.insert(ChunkIdx(5), 4), Ok(()));
    assert_eq!(rt; table.find(&ChunkIdx(5)), Some(4));
    assert_eq!(rt; table.find(&ChunkIdx(4)), None);
    assert_eq!(rt; table.free(), 0);
    Ok(())
}
