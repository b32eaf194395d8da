// The lines of the output that only this program has. A name need not be UTF-8, so it is written by its bytes.
ghost use Rattle.std.specs.Prelude.{◌++◌, codes, flat_map, Result};
ghost use Rattle.answer_lines.specs.Lines.{name_line, refused_line};
ghost use Rattle.answer_lines.specs.Writing.{Writes};
ghost use Rattle.session_script.specs.Lines.{about_text, about_root, search_end, root_end, printed_line, memory_line};

use answer_lines::part::Part::{Number, Text};
use answer_lines::piece::write_each;
use conflict_resolver::resolver::{NameRecord, Resolved};
use documents::records::write_records;
use documents::searches::write_found;
use given_names::NamedSymbol;
use keys::refs::SymbolRef;
use names::name::Name;
use names::refusal::Refusal;
use renamer::renamer::Renamer;
use renamer::renamer::naming::TopLevelName;
use session_memory::sizes::MemorySizes;
use std::alloc::{AllocError, Global};

/// What memory is given back.
pub fn memory(sizes: &MemorySizes, out: &mut Vec<u8>) -> Result<(), AllocError>
    ensures { Writes out.old out.new result (memory_line sizes.now) }
{
    write_each(
        &[
            Text(b"memory "),
            Number(sizes.records),
            Text(b" "),
            Number(sizes.names),
            Text(b" "),
            Number(sizes.inner),
            Text(b" "),
            Number(sizes.marks),
            Text(b" "),
            Number(sizes.helpers),
            Text(b"\n"),
        ],
        out,
    )
}

// A call and the text that it is about.
fn about_text(verb: &[u8], text: &[u8], out: &mut Vec<u8>) -> Result<(), AllocError>
    ensures { Writes out.old out.new result (about_text verb.now text.now) }
{
    let space: &[u8] = b" ";
    write_each(&[verb, space, text, space], out)
}

// A root that is to be named.
fn about_root(symbol: SymbolRef, out: &mut Vec<u8>) -> Result<(), AllocError>
    ensures { Writes out.old out.new result (about_root symbol) }
{
    let owner = Number(symbol.owner as usize);
    let number = Number(symbol.symbol as usize);
    write_each(
        &[Text(b"root "), owner, Text(b"."), number, Text(b" ")],
        out,
    )
}

fn search_end(answer: Result<Resolved, Refusal>, out: &mut Vec<u8>) -> Result<(), AllocError>
    ensures { Writes out.old out.new result (search_end answer) }
{
    match answer {
        Ok(found) => write_found(&found, out),
        Err(refusal) => answer_lines::refused(refusal, out),
    }
}

fn root_end(answer: Result<TopLevelName, Refusal>, out: &mut Vec<u8>) -> Result<(), AllocError>
    ensures { Writes out.old out.new result (root_end answer) }
{
    match answer {
        Ok(TopLevelName::Given(found)) => write_found(&found, out),
        Ok(TopLevelName::Already(name)) => {
            write_each(&[Text(b"has "), Text(name.as_bytes()), Text(b"\n")], out)
        }
        Err(refusal) => answer_lines::refused(refusal, out),
    }
}

/// A call that is refused for the text that it is about.
pub fn text_refused(
    verb: &[u8],
    text: &[u8],
    refusal: Refusal,
    out: &mut Vec<u8>,
) -> Result<(), AllocError>
    ensures { Writes out.old out.new result (about_text verb.now text.now ++ refused_line refusal) }
{
    about_text(verb, text, out)?;
    answer_lines::refused(refusal, out)
}

/// A call that searches for a name, and what it answers.
pub fn search(
    verb: &[u8],
    text: &[u8],
    answer: Result<Resolved, Refusal>,
    out: &mut Vec<u8>,
) -> Result<(), AllocError>
    ensures { Writes out.old out.new result (about_text verb.now text.now ++ search_end answer) }
{
    about_text(verb, text, out)?;
    search_end(answer, out)
}

/// A symbol of a root, and the name that it has now.
pub fn root(
    symbol: SymbolRef,
    answer: Result<TopLevelName, Refusal>,
    out: &mut Vec<u8>,
) -> Result<(), AllocError>
    ensures { Writes out.old out.new result (about_root symbol ++ root_end answer) }
{
    about_root(symbol, out)?;
    root_end(answer, out)
}

/// The name that a reference to the symbol is printed as, where there is one.
pub fn printed(symbol: SymbolRef, name: Option<Name>, out: &mut Vec<u8>) -> Result<(), AllocError>
    ensures { Writes out.old out.new result (printed_line symbol name) }
{
    let owner = Number(symbol.owner as usize);
    let number = Number(symbol.symbol as usize);
    match name {
        Some(name) => write_each(
            &[
                Text(b"printed "),
                owner,
                Text(b"."),
                number,
                Text(b" "),
                Text(name.as_bytes()),
                Text(b"\n"),
            ],
            out,
        ),
        None => write_each(
            &[Text(b"unnamed "), owner, Text(b"."), number, Text(b"\n")],
            out,
        ),
    }
}

/// A buffer for the names: of so many places, or else of as many as are needed, and never of more than there are names.
pub fn name_rows(
    heap: Global,
    places: Option<u32>,
    named: usize,
) -> Result<Vec<NamedSymbol>, AllocError> {
    let places = places.map_or(named, |places| places as usize);
    vec![in heap; NamedSymbol::default(); places.min(named)]
}

/// The buffer for the names is too short.
pub fn names_refused(refusal: Refusal, out: &mut Vec<u8>) -> Result<(), AllocError>
    ensures { Writes out.old out.new result (codes "names " ++ refused_line refusal) }
{
    write_each(&[Text(b"names ")], out)?;
    answer_lines::refused(refusal, out)
}

/// The named symbols, ascending by module and number.
pub fn names(
    count: Result<usize, Refusal>,
    rows: &[NamedSymbol],
    out: &mut Vec<u8>,
) -> Result<(), AllocError>
    ensures { Writes out.old out.new result (elim count [ Ok _ ↦ flat_map name_line rows.now | Err refusal ↦ codes "names " ++ refused_line refusal ]) }
{
    match count {
        Ok(_) => write_each(rows, out),
        Err(refusal) => names_refused(refusal, out),
    }
}

/// The records, ascending by the bytes of their names.
pub fn records(heap: Global, renamer: &Renamer<'_>, out: &mut Vec<u8>) -> Result<(), AllocError> {
    let mut rows: Vec<NameRecord> = (0..renamer.records())
        .filter_map(|i| renamer.record_at(i))
        .collect(heap)?;
    write_records(&mut rows, out)
}
