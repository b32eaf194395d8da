// A name, in a buffer of its own.
ghost use Rattle.std.specs.Prelude.{◌≡◌, ℕ, ◌≤◌, length, slice_index};

pub mod form;
mod order;
pub mod text;

use crate::limits::LONGEST_NAME;

/// The name of a symbol, as it is printed. It has its own buffer and is `Copy`: names go in and out of tables, and nothing is
/// taken from the heap for them. The text is bytes and no `str`, since limits count bytes, and what a helper is named after
/// need not be UTF-8. Behind the text the buffer is zero, so that two names with one text are one value.
#[derive(Clone, Copy)]
pub struct Name {
    len: u8,
    bytes: [u8; LONGEST_NAME],
    ghost fits: { len ≤ 105 },
    ghost whole: { length bytes ≡ 105 },
    ghost padded: { (k : ℕ) → len ≤ k → slice_index bytes k ≡ 0 },
}
