// The rows that lines outside of modules say.
ghost use Rattle.std.specs.Prelude.{◌≡◌, map};
ghost use Rattle.chunk_tables.specs.View.{module_of, other_of};
ghost use Rattle.chunk_text.specs.Gives.{Reads, Gives};
ghost use Rattle.chunk_text.specs.ChunkRows.{format_code, sizes_in, memory_row, kind_in, empty_module, module_row, entry_row, other_row};

use crate::fault::{Fault, ReadError};
use crate::words::{add_each, either, number_in, symbol_in};
use chunk_tables::chunk::{EntrySymbol, Module, OtherChunk};
use chunk_tables::format::Format;
use chunk_tables::parts::ModuleKind;
use keys::refs::ChunkIdx;
use session_memory::sizes::MemorySizes;
use std::alloc::Global;

const CJS: &[u8] = b"cjs";

/// The code of the format that the word chooses. Any other word gives 0, which no format has: a wrong format is for the checks of
/// the chunk to refuse, and no fault of the line.
pub fn format_code(word: &[u8]) -> u8
    ensures { result ≡ format_code word.now }
{
    let Ok(text) = std::str::from_utf8(word) else {
        return 0;
    };
    match text.parse::<Format>() {
        Ok(format) => u8::from(format),
        Err(_) => 0,
    }
}

// For how many name records, given names, inner names, marks and helper names there is room.
fn sizes_in(
    records: &[u8],
    names: &[u8],
    inner: &[u8],
    marks: &[u8],
    helpers: &[u8],
) -> Result<MemorySizes, Fault>
    ensures { result ≡ sizes_in records.now names.now inner.now marks.now helpers.now }
{
    Ok(MemorySizes {
        records: number_in(records)? as usize,
        names: number_in(names)? as usize,
        inner: number_in(inner)? as usize,
        marks: number_in(marks)? as usize,
        helpers: number_in(helpers)? as usize,
    })
}

/// The sizes of a session's memory, all five.
pub fn memory_row(words: &[&[u8]]) -> Result<MemorySizes, Fault>
    ensures { result ≡ memory_row (map (λ w. w.now) words.now) }
{
    match words {
        [records, names, inner, marks, helpers] => sizes_in(records, names, inner, marks, helpers),
        _ => Err(Fault::WrongWords),
    }
}

// A normal module or an external one. The text has no word for an external module's namespace: it is the first symbol.
fn kind_in(word: &[u8]) -> Result<ModuleKind, Fault>
    ensures { result ≡ kind_in word.now }
{
    if either(word, b"external", b"normal")? {
        Ok(ModuleKind::External { namespace: 0 })
    } else {
        Ok(ModuleKind::Normal)
    }
}

// A module that no line has added to.
fn empty_module(heap: Global, kind: ModuleKind, exec_order: u32) -> Module
    ensures { module_of result ≡ empty_module kind exec_order }
{
    Module {
        kind,
        exec_order,
        wrapped: false,
        hmr_hot: None,
        cjs_this: None,
        default_export: None,
        dynamic_import: false,
        file_url: false,
        uses_module: false,
        uses_module_or_exports: false,
        scopes: Vec::new(heap),
        symbols: Vec::new(heap),
        references: Vec::new(heap),
        shims: Vec::new(heap),
        named_imports: Vec::new(heap),
        unresolved: Vec::new(heap),
        statements: Vec::new(heap),
    }
}

/// The module that begins with these words: its kind and its execution order.
pub fn module_row(heap: Global, words: &[&[u8]]) -> Result<Module, Fault>
    ensures { Reads module_of result (module_row (map (λ w. w.now) words.now)) }
{
    let [kind, exec_order] = words else {
        return Err(Fault::WrongWords);
    };
    let kind = kind_in(kind)?;
    let exec_order = number_in(exec_order)?;
    Ok(empty_module(heap, kind, exec_order))
}

/// A symbol that the entry refers to, with a word behind it if it came by way of a CommonJS module.
pub fn entry_row(words: &[&[u8]]) -> Result<EntrySymbol, Fault>
    ensures { result ≡ entry_row (map (λ w. w.now) words.now) }
{
    let (symbol, came_from_cjs) = match words {
        [symbol] => (symbol_in(symbol)?, false),
        [symbol, mark] => {
            let symbol = symbol_in(symbol)?;
            if *mark != CJS {
                return Err(Fault::NoSuchWord);
            }
            (symbol, true)
        }
        _ => return Err(Fault::WrongWords),
    };
    Ok(EntrySymbol {
        symbol,
        came_from_cjs,
    })
}

/// Another chunk: its number, its name, and the symbols that are imported from it.
pub fn other_row(heap: Global, words: &[&[u8]]) -> Result<OtherChunk, ReadError>
    ensures { Gives other_of result (other_row (map (λ w. w.now) words.now)) }
{
    let [number, name, words @ ..] = words else {
        return Err(ReadError::Line(Fault::WrongWords));
    };
    let index = ChunkIdx(number_in(number)?);
    let name = Vec::from_slice(heap, name)?;
    let mut imports = Vec::new(heap);
    add_each(&mut imports, words, |word| symbol_in(word))?;
    Ok(OtherChunk {
        index,
        name,
        imports,
    })
}
