// The words of a line, and what each can say.
ghost use Rattle.std.specs.Prelude.{◌≡◌, List, ℕ, ◌++◌, map, IfOk, Ok, Result, vec_items};
ghost use Rattle.std.specs.List.{list_any};
ghost use Rattle.chunk_text.specs.Gives.{Reads, Gives, Says};
ghost use Rattle.chunk_text.specs.Words.{words, is_nil, number_in, symbol_in, either, no_word, mark, only_word, only_number, adding, once, find_verb};
ghost use Rattle.chunk_text.specs.declared.fault.Fault.{Fault};

use crate::fault::{Fault, ReadError};
use keys::refs::SymbolRef;
use line_text::cut::cut;
use line_text::numeral::number;
use std::alloc::{AllocError, Global};

/// The words of a line, which stand between single spaces. They are not copied: a name is taken out of the line when a table
/// gets it.
pub fn words_of(heap: Global, line: &[u8]) -> Result<Vec<&[u8]>, AllocError>
    ensures { IfOk result (λ v. map (λ w. w.now) v.items ≡ words line.now) }
{
    line.split(|byte| *byte == b' ').collect(heap)
}

/// Whether a space is too many: two in a row have an empty word between them, and one at the end has one behind it.
pub fn has_empty_word(words: &[&[u8]]) -> bool
    ensures { result ≡ list_any is_nil (map (λ w. w.now) words.now) }
{
    words.iter().any(|word| word.is_empty())
}

/// The number that a word writes.
pub fn number_in(word: &[u8]) -> Result<u32, Fault>
    ensures { result ≡ number_in word.now }
{
    number(word).ok_or(Fault::NoNumber)
}

/// The symbol that a word writes: its module's number, a dot, and its own.
pub fn symbol_in(word: &[u8]) -> Result<SymbolRef, Fault>
    ensures { result ≡ symbol_in word.now }
{
    let (owner, symbol) = cut(word, b'.');
    Ok(SymbolRef {
        owner: number(owner).ok_or(Fault::NoSymbol)?,
        symbol: number(symbol).ok_or(Fault::NoSymbol)?,
    })
}

/// Which of two words it is. `true` is the first.
pub fn either(word: &[u8], first: &[u8], second: &[u8]) -> Result<bool, Fault>
    ensures { result ≡ either word.now first.now second.now }
{
    if word == first {
        Ok(true)
    } else if word == second {
        Ok(false)
    } else {
        Err(Fault::NoSuchWord)
    }
}

/// That no word is left. A line is not read half: what stands behind its end may be meant.
pub fn no_word(words: &[&[u8]]) -> Result<(), Fault>
    ensures { Reads (λ u. u) result (no_word (map (λ w. w.now) words.now)) }
{
    match words {
        [] => Ok(()),
        _ => Err(Fault::WrongWords),
    }
}

// A mark stands alone.
pub(crate) fn mark(words: &[&[u8]]) -> Result<bool, Fault>
    ensures { result ≡ mark (map (λ w. w.now) words.now) }
{
    no_word(words)?;
    Ok(true)
}

/// The word of a line that has one.
pub fn only_word<'a>(words: &[&'a [u8]]) -> Result<&'a [u8], Fault>
    ensures { Reads (λ w. w.now) result (only_word (map (λ w. w.now) words.now)) }
{
    match words {
        [word] => Ok(*word),
        _ => Err(Fault::WrongWords),
    }
}

// The one number that there is.
pub(crate) fn only_number(words: &[&[u8]]) -> Result<u32, Fault>
    ensures { result ≡ only_number (map (λ w. w.now) words.now) }
{
    number_in(only_word(words)?)
}

// Puts what each word says behind the rows.
pub(crate) fn add_each<T: Drop, R: Fn(&[u8]) -> Result<T, Fault>>(
    rows: &mut Vec<T>,
    words: &[&[u8]],
    read: R,
) -> Result<(), ReadError>
    requires { R.IsAlwaysCallable read }
    ensures { (says : List ℕ → Result T Fault) → Says (R.post read) says → Gives (λ _. rows.new.items) result (adding says rows.old.items (map (λ w. w.now) words.now)) }
{
    for word in words {
        rows.push(read(word)?)?;
    }
    Ok(())
}

// Puts each word behind the names.
pub(crate) fn add_names(
    heap: Global,
    names: &mut Vec<Vec<u8>>,
    words: &[&[u8]],
) -> Result<(), ReadError>
    ensures { Gives (λ _. map vec_items names.new.items) result (Ok (map vec_items names.old.items ++ map (λ w. w.now) words.now)) }
{
    for word in words {
        names.push(Vec::from_slice(heap, word)?)?;
    }
    Ok(())
}

// Gives what is given once.
pub(crate) fn once<T: Copy>(slot: &mut Option<T>, value: T) -> Result<(), Fault>
    ensures { Reads (λ _. slot.new) result (once slot.old value) }
{
    if slot.is_some() {
        return Err(Fault::GivenTwice);
    }
    *slot = Some(value);
    Ok(())
}

// What a line is whose first word stands in a table of such words.
pub(crate) fn find_verb<V: Copy>(verbs: &[(&[u8], V)], word: &[u8]) -> Result<V, Fault>
    ensures { result ≡ find_verb (map (λ t. (t.0.now, t.1)) verbs.now) word.now }
{
    verbs
        .iter()
        .find(|verb| verb.0 == word)
        .map(|verb| verb.1)
        .ok_or(Fault::NoSuchLine)
}
