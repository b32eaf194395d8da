// The numbered forms of a name.
ghost use Rattle.std.specs.Prelude.{◌≤◌, length, MatchOption};
ghost use Rattle.names.specs.Forms.{FormOf, Suffix};
ghost use Rattle.names.specs.Spelt.{spelt};

use super::Name;
use crate::limits::{HIGHEST_NUMBER, LONGEST_BASE};
use itoa::Buffer;

impl Name {
    /// The name with `$` and `k` behind it, which a symbol is called where its own name is taken:
    ///
    /// ```js
    /// const now = () => 1; // of clock.js
    /// const now$1 = () => 2; // of page.js, which calls it `now` as well
    /// ```
    ///
    /// Two bases never meet in one form: what stands behind its last `$` is the number, and the rest is the base. There is no form
    /// of a name of more than 100 bytes, and none for 0 or a number above 9,999.
    pub fn numbered(&self, k: u16) -> Option<Name>
        ensures { MatchOption result ((length (spelt self.now) ≤ 100) × Suffix k → ⊥) (λ n. (length (spelt self.now) ≤ 100) × Suffix k × FormOf (spelt self.now) k (spelt n)) }
    {
        if self.len() > LONGEST_BASE || k == 0 || k > HIGHEST_NUMBER {
            return None;
        }
        let mut name = *self;
        let mut digits = Buffer::new();
        name.append(b"$");
        name.append(digits.format(k).as_bytes());
        Some(name)
    }
}
