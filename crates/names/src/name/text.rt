// Making a name, and what it spells.
ghost use Rattle.std.specs.Prelude.{◌≡◌, ◌+◌, ◌<◌, ◌≤◌, [], ◌++◌, length, MatchResult};
ghost use Rattle.std.specs.Str.{bytes_eq};
ghost use Rattle.names.specs.Bases.{is_base};
ghost use Rattle.names.specs.Refusals.{number_of};
ghost use Rattle.names.specs.Spelt.{spelt};

use super::Name;
use crate::limits::{LONGEST_BASE, LONGEST_NAME};
use crate::refusal::Refusal;

/// Whether a text can be a base, of which names are made, or can be reserved. An empty one names nothing, and behind a longer
/// one there would be no room for `$` and four digits.
pub fn is_base(text: &[u8]) -> bool
    ensures { result ≡ is_base text.now }
{
    !text.is_empty() && text.len() <= LONGEST_BASE
}

// The name without a byte. Memory is filled with it before names come; no symbol is called so.
impl Default for Name {
    fn default() -> Name
        ensures { spelt result ≡ [] }
    {
        Name {
            len: 0,
            bytes: [0; LONGEST_NAME],
        }
    }
}

impl Name {
    /// The name with this text. Refused with 7 where it has more than 105 bytes: no base, and no numbered form of one, has.
    pub fn new(text: &[u8]) -> Result<Name, Refusal>
        ensures { MatchResult result (λ n. spelt n ≡ text.now) (λ e. (number_of e ≡ 7) × (105 < length text.now)) }
    {
        if text.len() > LONGEST_NAME {
            return Err(Refusal::BadName);
        }
        let mut name = Name::default();
        name.append(text);
        Ok(name)
    }

    /// How many bytes the text has, without the zeros behind it.
    pub fn len(&self) -> usize
        ensures { result ≡ length (spelt self.now) }
    {
        usize::from(self.len)
    }

    /// The text: what a printer writes.
    pub fn as_bytes(&self) -> &[u8]
        ensures { result.now ≡ spelt self.now }
    {
        &self.bytes[..self.len()]
    }

    /// Whether the name can be a base. The name without a byte cannot, nor can a numbered form that is longer than any base.
    pub fn is_base(&self) -> bool
        ensures { result ≡ is_base (spelt self.now) }
    {
        is_base(self.as_bytes())
    }

    /// Whether the name is spelt so. It compares with a text that has not been made a name, and may be too long for one.
    pub fn is(&self, word: &[u8]) -> bool
        ensures { result ≡ bytes_eq (spelt self.now) word.now }
    {
        self.as_bytes() == word
    }

    // Puts a text behind the name's own.
    pub(crate) fn append(&mut self, text: &[u8])
        requires { self.old.len + length text.now ≤ 105 }
        ensures spells { spelt self.new ≡ spelt self.old ++ text.now }
        ensures longer { self.new.len ≡ self.old.len + length text.now }
    {
        let start = self.len();
        let end = start + text.len();
        self.bytes[start..end].copy_from_slice(text);
        self.len = end as u8;
    }
}
