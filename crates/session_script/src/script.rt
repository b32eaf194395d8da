// Scripts: a chunk, and behind a line `session` the calls of a session over it.
use crate::call::{Call, OpenCall, TellCall, read_call};
use chunk_text::document::{Document, read_document};
use chunk_text::fault::{DocumentError, Fault, ReadError};
use line_text::cut::trim_front;
use std::alloc::Global;

const SESSION: &[u8] = b"session";

// The calls of a session, by the state that it makes them in.
#[derive(Drop)]
pub struct Calls<'a> {
    pub open: Vec<OpenCall<'a>>,
    pub repairing: Vec<TellCall>,
    // Whether repair began.
    began: bool,
}

impl<'a> Calls<'a> {
    fn none(heap: Global) -> Calls<'a> {
        Calls {
            open: Vec::new(heap),
            repairing: Vec::new(heap),
            began: false,
        }
    }

    // One call more. Once repair began, only what any session tells can be asked for.
    fn add(&mut self, call: Call<'a>) -> Result<(), ReadError> {
        match (call, self.began) {
            (Call::Open(call), false) => self.open.push(call)?,
            (Call::Tell(call), false) => self.open.push(OpenCall::Tell(call))?,
            (Call::Tell(call), true) => self.repairing.push(call)?,
            (Call::Repair, false) => self.began = true,
            (Call::Open(_) | Call::Repair, true) => return Err(ReadError::Line(Fault::NoSuchLine)),
        }
        Ok(())
    }
}

// A chunk, and the calls of a session over it.
#[derive(Drop)]
pub struct Script<'a> {
    pub document: Document,
    pub calls: Calls<'a>,
}

// Reads one line more.
fn read_line<'a>(heap: Global, calls: &mut Calls<'a>, line: &'a [u8]) -> Result<(), ReadError> {
    match read_call(heap, line)? {
        Some(call) => calls.add(call),
        None => Ok(()),
    }
}

// The calls that the lines from this place on ask for.
fn read_calls<'a>(
    heap: Global,
    lines: &[&'a [u8]],
    from: usize,
) -> Result<Calls<'a>, DocumentError> {
    let mut calls = Calls::none(heap);
    for (place, line) in lines.iter().enumerate().skip(from) {
        read_line(heap, &mut calls, line).map_err(|error| error.at(place))?;
    }
    Ok(calls)
}

/// The script that the lines of a document are, or its first fault. The chunk is read before the calls, so a fault of its
/// lines comes first.
pub fn read_script<'a>(heap: Global, lines: &[&'a [u8]]) -> Result<Script<'a>, DocumentError> {
    let is_session = |line: &&[u8]| trim_front(line) == SESSION;
    let session = lines.iter().position(is_session).unwrap_or(lines.len());
    let document = read_document(heap, &lines[..session])?;
    let calls = read_calls(heap, lines, session.saturating_add(1))?;
    Ok(Script { document, calls })
}
