// A text in two parts. Each `match` has these parts as its arms, which `map_or` would hide.
ghost use Rattle.std.specs.Prelude.{◌≡◌};
ghost use Rattle.line_text.specs.Cut.{until, past, trimmed};

/// What stands before the first `at`, and what follows it. Where there is no such byte the second part is empty, so a caller for
/// whom the byte has to be there sees it by that part not being what it has to be.
pub fn cut(text: &[u8], at: u8) -> (&[u8], &[u8])
    ensures before { result.0.now ≡ until at text.now }
    ensures behind { result.1.now ≡ past at text.now }
{
    match text.iter().position(|byte| *byte == at) {
        Some(i) => (&text[..i], &text[i + 1..]),
        None => (text, &[]),
    }
}

/// The text from its first byte that is no space: lines can be indented as their writer likes.
pub fn trim_front(text: &[u8]) -> &[u8]
    ensures { result.now ≡ trimmed text.now }
{
    match text.iter().position(|byte| *byte != b' ') {
        Some(i) => &text[i..],
        None => &[],
    }
}
