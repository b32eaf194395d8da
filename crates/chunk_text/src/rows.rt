// The rows that lines of a module say.
ghost use Rattle.std.specs.Prelude.{◌≡◌, map};
ghost use Rattle.chunk_tables.specs.View.{symbol_of, unresolved_of, statement_of, parent_of};
ghost use Rattle.chunk_text.specs.Gives.{Reads, Gives};
ghost use Rattle.chunk_text.specs.Rows.{scope_row, behind, links_in, symbol_row, unresolved_row, reference_row, member_row, is_external, past_mark, statement_row};

use crate::fault::{Fault, ReadError};
use crate::words::{add_each, either, no_word, number_in, only_word, symbol_in};
use chunk_tables::parts::{Reference, Scope, Statement, Symbol, Unresolved};
use keys::refs::SymbolRef;
use std::alloc::Global;

const DASH: &[u8] = b"-";

const EXTERNAL: &[u8] = b"external";

/// A scope, by the number of its parent. The first one is the root, which has none, and can be written with a dash.
pub fn scope_row(first: bool, words: &[&[u8]]) -> Result<Scope, Fault>
    ensures { Reads parent_of result (scope_row first (map (λ w. w.now) words.now)) }
{
    let word = only_word(words)?;
    let parent = if first && word == DASH {
        0
    } else {
        number_in(word)?
    };
    Ok(Scope { parent })
}

// The symbol behind the key, if the words begin with it, and the words that are left.
fn behind<'w, 'a>(
    key: &[u8],
    words: &'w [&'a [u8]],
) -> Result<(Option<SymbolRef>, &'w [&'a [u8]]), Fault>
    ensures { Reads (λ x. (x.0, map (λ w. w.now) x.1.now)) result (behind key.now (map (λ w. w.now) words.now)) }
{
    match words {
        [word, symbol, rest @ ..] if *word == key => Ok((Some(symbol_in(symbol)?), rest)),
        _ => Ok((None, words)),
    }
}

// A symbol's link and its alias, each if it is there. They have one order, so that what is written has one form.
fn links_in(words: &[&[u8]]) -> Result<(Option<SymbolRef>, Option<SymbolRef>), Fault>
    ensures { result ≡ links_in (map (λ w. w.now) words.now) }
{
    let (link, rest) = behind(b"link", words)?;
    let (alias, rest) = behind(b"alias", rest)?;
    no_word(rest)?;
    Ok((link, alias))
}

/// A symbol: its name, its scope, whether it is bound, and what it is linked to or read through.
pub fn symbol_row(heap: Global, words: &[&[u8]]) -> Result<Symbol, ReadError>
    ensures { Gives symbol_of result (symbol_row (map (λ w. w.now) words.now)) }
{
    let [name, scope, kind, links @ ..] = words else {
        return Err(ReadError::Line(Fault::WrongWords));
    };
    let scope = number_in(scope)?;
    let bound = either(kind, b"bound", b"facade")?;
    let (link, alias) = links_in(links)?;
    let name = Vec::from_slice(heap, name)?;
    Ok(Symbol {
        name,
        scope,
        bound,
        link,
        alias,
    })
}

/// A name that the module takes from outside, and the scope in which it stands.
pub fn unresolved_row(heap: Global, words: &[&[u8]]) -> Result<Unresolved, ReadError>
    ensures { Gives unresolved_of result (unresolved_row (map (λ w. w.now) words.now)) }
{
    let [name, scope] = words else {
        return Err(ReadError::Line(Fault::WrongWords));
    };
    let scope = number_in(scope)?;
    let name = Vec::from_slice(heap, name)?;
    Ok(Unresolved { name, scope })
}

/// A reference: the scope in which it stands, and the symbol of the module that it means.
pub fn reference_row(words: &[&[u8]]) -> Result<Reference, Fault>
    ensures { result ≡ reference_row (map (λ w. w.now) words.now) }
{
    let [scope, target] = words else {
        return Err(Fault::WrongWords);
    };
    Ok(Reference {
        scope: number_in(scope)?,
        target: number_in(target)?,
        resolved: None,
    })
}

/// A reference to a member of a symbol, and the symbol that the member is, where that is known.
pub fn member_row(words: &[&[u8]]) -> Result<Reference, Fault>
    ensures { result ≡ member_row (map (λ w. w.now) words.now) }
{
    let [scope, target, resolved] = words else {
        return reference_row(words);
    };
    Ok(Reference {
        scope: number_in(scope)?,
        target: number_in(target)?,
        resolved: Some(symbol_in(resolved)?),
    })
}

// Whether the words begin with the mark of an import from an external module, and what stands behind it.
fn external_mark<'w, 'a>(words: &'w [&'a [u8]]) -> (bool, &'w [&'a [u8]])
    ensures mark { result.0 ≡ is_external (map (λ w. w.now) words.now) }
    ensures rest { map (λ w. w.now) result.1.now ≡ past_mark (map (λ w. w.now) words.now) }
{
    match words {
        [word, rest @ ..] if *word == EXTERNAL => (true, rest),
        _ => (false, words),
    }
}

/// A statement: whether it is printed, whether it imports from an external module, and what it declares.
pub fn statement_row(heap: Global, words: &[&[u8]]) -> Result<Statement, ReadError>
    ensures { Gives statement_of result (statement_row (map (λ w. w.now) words.now)) }
{
    let [kept, words @ ..] = words else {
        return Err(ReadError::Line(Fault::WrongWords));
    };
    let kept = either(kept, b"kept", b"dropped")?;
    let (external_import, words) = external_mark(words);
    let mut declared = Vec::new(heap);
    add_each(&mut declared, words, |word| symbol_in(word))?;
    Ok(Statement {
        kept,
        external_import,
        declared,
    })
}
