use chunk_checks::checked::CheckedChunk;
use chunk_text::document::read_document;
use session_memory::sizes::MemorySizes;
use std::test::Fail;

// The number that a chunk is refused with whose one module has so many rows, all alike, behind its root and a binding. There
// is memory enough for it, so that only the limits can be exceeded.
fn refusal_of(rt: &HostRuntime, row: &[u8], count: usize) -> Result<Option<u8>, Fail> {
    let heap = rt.alloc();
    let mut lines: Vec<&[u8]> = Vec::new(heap);
    lines.push(b"format esm")?;
    lines.push(b"module normal 0")?;
    lines.push(b"scope -")?;
    lines.push(b"symbol now 0 bound")?;
    for _ in 0..count {
        lines.push(row)?;
    }
    lines.push(b"end")?;
    let document = read_document(heap, &lines).map_err(|_| Fail::new("a document without faults"))?;
    let sizes = MemorySizes::needed_by(&document.chunk);
    Ok(
        CheckedChunk::check(heap, document.chunk, &sizes)
            .err()
            .map(|refused| refused.refusal.number()),
    )
}

#[test]
fn there_are_at_most_16384_scopes(rt: HostRuntime) -> Result<(), Fail> {
    assert_eq!(rt; refusal_of(&rt, b"scope 0", 16383)?, None);
    assert_eq!(rt; refusal_of(&rt, b"scope 0", 16384)?, Some(1));
    Ok(())
}

#[test]
fn there_are_at_most_16384_symbols(rt: HostRuntime) -> Result<(), Fail> {
    assert_eq!(rt; refusal_of(&rt, b"symbol hours 0 facade", 16383)?, None);
    assert_eq!(rt; refusal_of(&rt, b"symbol hours 0 facade", 16384)?, Some(1));
    Ok(())
}

#[test]
fn there_are_at_most_32768_references(rt: HostRuntime) -> Result<(), Fail> {
    assert_eq!(rt; refusal_of(&rt, b"reference 0 0", 32768)?, None);
    assert_eq!(rt; refusal_of(&rt, b"reference 0 0", 32769)?, Some(1));
    Ok(())
}
