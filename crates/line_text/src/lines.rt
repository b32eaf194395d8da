// The lines of a text, one after another.
ghost use Rattle.std.specs.Prelude.{◌≡◌, ◌+◌, ◌-◌, ◌^◌, min, [], length, Some, None, MatchOption};
ghost use Rattle.line_text.specs.Cut.{until, past, trimmed};
ghost use Rattle.std.specs.Iterator.{at_most};

use crate::cut::{cut, trim_front};

/// What is left of a text, and how many lines of it were passed. It goes through a text of any length, takes nothing from the
/// heap and cannot fail; and it is `Copy`, so a reader can keep where it stood and go over the same lines again.
#[derive(Clone, Copy)]
pub struct Lines<'a> {
    rest: &'a [u8],
    passed: usize,
}

impl<'a> Lines<'a> {
    /// In front of the first line.
    pub fn new(text: &'a [u8]) -> Lines<'a>
        ensures { (result.rest.now ≡ text.now) × (result.passed ≡ 0) }
    {
        Lines {
            rest: text,
            passed: 0,
        }
    }

    /// The number, as an editor shows it, of the line that was read last; the first has number 1.
    pub fn number(&self) -> usize
        ensures { result ≡ self.now.passed }
    {
        self.passed
    }
}

impl<'a> Iterator for Lines<'a> {
    type Item = &'a [u8];

    ghost remaining = { λ s. at_most (length s.rest.now) };

    ghost next_gives = { λ s r t. MatchOption r ((s.rest.now ≡ []) × (t.rest.now ≡ []) × (t.passed ≡ s.passed)) (λ line. (line.now ≡ trimmed (until 10 s.rest.now)) × (t.rest.now ≡ past 10 s.rest.now) × (t.passed ≡ min (s.passed + 1) (2 ^ 64 - 1))) };

    // The next line, without the spaces in front of it. A text without a byte has none.
    fn next(&mut self) -> Option<&'a [u8]> {
        if self.rest.is_empty() {
            return None;
        }
        let (line, rest) = cut(self.rest, b'\n');
        self.rest = rest;
        self.passed = self.passed.saturating_add(1);
        Some(trim_front(line))
    }
}
