// What writing a chunk and reading it again have to do with each other.
ghost use Rattle.chunk_text.specs.Laws.{WrittenIsRead};

/// Does nothing when it runs. Whoever calls it knows from its contract that the reader loses nothing: each chunk that has a
/// text is what the reader makes of that text. Without it the reader could pass over a kind of line, and its definitions with
/// it.
pub fn written_is_read()
    ensures { WrittenIsRead }
{}
