// Documents: each has its own records and vetoes.
use crate::command::{Command, Fault, parse};
use crate::print;
use conflict_resolver::resolver::{ConflictResolver, RecordSlot, Resolved};
use documents::document::DocumentLines;
use names::limits::MOST_RECORDS;
use names::name::Name;
use names::refusal::Refusal;
use std::alloc::{AllocError, Global};
use vetoes::{Veto, Vetoes};

// The first faulty line of a document, by its place there, and what is wrong with it.
#[derive(Clone, Copy)]
struct FaultyLine {
    place: usize,
    fault: Fault,
}

// How many records there are: what the first command says, if it speaks of them. All lines are read before any is carried
// out, so that a faulty one leaves nothing half done. What they ask for is read again then, and not kept: it would take more
// memory than the text.
fn read_lines(lines: &[&[u8]]) -> Result<u32, FaultyLine> {
    let mut records = MOST_RECORDS;
    let mut first = true;
    for (place, line) in lines.iter().enumerate() {
        if line.is_empty() {
            continue;
        }
        match parse(line, first) {
            Ok(None) => {}
            Ok(Some(command)) => {
                if let Command::Records(count) = command {
                    records = count;
                }
                first = false;
            }
            Err(fault) => return Err(FaultyLine { place, fault }),
        }
    }
    Ok(records)
}

// The records and vetoes of a document that is carried out.
#[derive(Drop)]
struct Session {
    resolver: ConflictResolver,
    vetoes: Vetoes,
}

impl Session {
    // Nothing is on record, and nothing is vetoed.
    fn new(heap: Global, records: usize) -> Result<Session, AllocError> {
        let slots = vec![in heap; RecordSlot::empty(); records]?;
        Ok(Session {
            resolver: ConflictResolver::new(slots, records),
            vetoes: Vetoes::none(heap),
        })
    }

    fn reserve(&mut self, text: &[u8]) -> Result<(), Refusal> {
        let name = Name::new(text)?;
        self.resolver.reserve(&name)
    }

    // The last of so many answers, and at least one.
    fn resolve(&mut self, text: &[u8], times: u32) -> Result<Resolved, Refusal> {
        let base = Name::new(text)?;
        for _ in 1..times {
            let _ = self.resolver.resolve(&base, &self.vetoes);
        }
        self.resolver.resolve(&base, &self.vetoes)
    }

    fn perform(&mut self, command: Command<'_>, out: &mut Vec<u8>) -> Result<(), AllocError> {
        match command {
            // Heeded where the session was made.
            Command::Records(_) => {}
            Command::Reserve(name) => {
                if let Err(refusal) = self.reserve(name) {
                    print::name_refused(name, refusal, out)?;
                }
            }
            Command::Veto(kind, name) => match Veto::new(kind, name) {
                Ok(veto) => self.vetoes.add(veto)?,
                Err(refusal) => print::name_refused(name, refusal, out)?,
            },
            Command::VetoAll => self.vetoes.add_all(),
            Command::VetoNone => self.vetoes.clear(),
            Command::Resolve(base, times) => match self.resolve(base, times) {
                Ok(found) => print::resolved(base, &found, out)?,
                Err(refusal) => print::name_refused(base, refusal, out)?,
            },
        }
        Ok(())
    }

    fn list(&self, heap: Global, out: &mut Vec<u8>) -> Result<(), AllocError> {
        print::records(heap, &self.resolver, out)
    }
}

fn perform(
    heap: Global,
    lines: &[&[u8]],
    records: u32,
    out: &mut Vec<u8>,
) -> Result<(), AllocError> {
    if !(1..=MOST_RECORDS).contains(&records) {
        return answer_lines::refused(Refusal::OutsideLimit, out);
    }
    let mut session = Session::new(heap, records as usize)?;
    for line in lines {
        if line.is_empty() {
            continue;
        }
        // Each line has been read already, so `records` stands where it may.
        if let Ok(Some(command)) = parse(line, true) {
            session.perform(command, out)?;
        }
    }
    session.list(heap, out)
}

/// Where a line is faulty, that is the whole answer.
pub fn answer(
    heap: Global,
    document: DocumentLines<'_, '_>,
    out: &mut Vec<u8>,
) -> Result<(), AllocError> {
    match read_lines(document.lines) {
        Ok(records) => perform(heap, document.lines, records, out),
        Err(FaultyLine { place, fault }) => {
            answer_lines::fault(document.number_at(place), fault.words(), out)
        }
    }
}
