// The lines that are calls of a session.
use chunk_tables::kind::RootBindingKind;
use chunk_text::fault::{Fault, ReadError};
use chunk_text::words::{
    either, has_empty_word, no_word, number_in, only_word, symbol_in, words_of,
};
use keys::refs::SymbolRef;
use line_text::cut::trim_front;
use std::alloc::Global;
use vetoes::VetoKind;

// What a line asks of a session.
#[derive(Clone, Copy)]
pub enum Call<'a> {
    Open(OpenCall<'a>),
    Tell(TellCall),
    // Repair begins.
    Repair,
}

// What only an open session is asked, and what it tells.
#[derive(Clone, Copy)]
pub enum OpenCall<'a> {
    Reserve(&'a [u8]),
    // Without a kind the chunk tells it.
    Root(SymbolRef, Option<RootBindingKind>),
    Helper(&'a [u8]),
    // A helper for a chunk of this name.
    Require(&'a [u8]),
    Veto(VetoKind, &'a [u8]),
    VetoAll,
    VetoNone,
    // So many searches.
    Policy(&'a [u8], u32),
    Records,
    Tell(TellCall),
}

// What every session tells.
#[derive(Clone, Copy)]
pub enum TellCall {
    Printed(SymbolRef),
    // With a buffer of so many places, or else of as many as are needed.
    Names(Option<u32>),
}

fn root_kind(word: &[u8]) -> Result<RootBindingKind, Fault> {
    if either(word, b"authored", b"synthesized")? {
        Ok(RootBindingKind::Authored)
    } else {
        Ok(RootBindingKind::Synthesized)
    }
}

fn root<'a>(words: &[&'a [u8]]) -> Result<OpenCall<'a>, Fault> {
    match words {
        [symbol] => Ok(OpenCall::Root(symbol_in(symbol)?, None)),
        [symbol, kind] => Ok(OpenCall::Root(symbol_in(symbol)?, Some(root_kind(kind)?))),
        _ => Err(Fault::WrongWords),
    }
}

fn veto_kind(word: &[u8]) -> Result<VetoKind, Fault> {
    match word {
        b"bare" => Ok(VetoKind::Bare),
        b"numbered" => Ok(VetoKind::Numbered),
        b"both" => Ok(VetoKind::Both),
        _ => Err(Fault::NoSuchWord),
    }
}

fn veto<'a>(words: &[&'a [u8]]) -> Result<OpenCall<'a>, Fault> {
    match words {
        [which] => {
            let all = either(which, b"all", b"none")?;
            Ok(if all {
                OpenCall::VetoAll
            } else {
                OpenCall::VetoNone
            })
        }
        [kind, name] => Ok(OpenCall::Veto(veto_kind(kind)?, name)),
        _ => Err(Fault::WrongWords),
    }
}

fn policy<'a>(words: &[&'a [u8]]) -> Result<OpenCall<'a>, Fault> {
    match words {
        [base] => Ok(OpenCall::Policy(base, 1)),
        [base, times] => match number_in(times)? {
            0 => Err(Fault::NoSuchWord),
            times => Ok(OpenCall::Policy(base, times)),
        },
        _ => Err(Fault::WrongWords),
    }
}

fn names(words: &[&[u8]]) -> Result<TellCall, Fault> {
    match words {
        [] => Ok(TellCall::Names(None)),
        [places] => Ok(TellCall::Names(Some(number_in(places)?))),
        _ => Err(Fault::WrongWords),
    }
}

fn alone<'a>(call: Call<'a>, words: &[&'a [u8]]) -> Result<Call<'a>, Fault> {
    no_word(words)?;
    Ok(call)
}

// The call that begins with this word.
fn call_of<'a>(verb: &[u8], words: &[&'a [u8]]) -> Result<Call<'a>, Fault> {
    match verb {
        b"reserve" => Ok(Call::Open(OpenCall::Reserve(only_word(words)?))),
        b"root" => Ok(Call::Open(root(words)?)),
        b"helper" => Ok(Call::Open(OpenCall::Helper(only_word(words)?))),
        b"require" => Ok(Call::Open(OpenCall::Require(only_word(words)?))),
        b"veto" => Ok(Call::Open(veto(words)?)),
        b"policy" => Ok(Call::Open(policy(words)?)),
        b"printed" => Ok(Call::Tell(TellCall::Printed(symbol_in(only_word(words)?)?))),
        b"names" => Ok(Call::Tell(names(words)?)),
        b"records" => alone(Call::Open(OpenCall::Records), words),
        b"repair" => alone(Call::Repair, words),
        _ => Err(Fault::NoSuchLine),
    }
}

// The call that a line asks for. An empty line, and one that begins with a number sign, ask for none.
pub fn read_call<'a>(heap: Global, line: &'a [u8]) -> Result<Option<Call<'a>>, ReadError> {
    let line = match trim_front(line) {
        [] | [b'#', ..] => return Ok(None),
        line => line,
    };
    let words = words_of(heap, line)?;
    if has_empty_word(&words) {
        return Err(ReadError::Line(Fault::StraySpace));
    }
    match words.as_slice() {
        [verb, words @ ..] => Ok(Some(call_of(verb, words)?)),
        [] => Ok(None),
    }
}
