// What a session whose naming calls are made has given.
use answer_lines::piece::write_each;
use conflict_resolver::resolver::NameRecord;
use documents::records::write_records;
use given_names::NamedSymbol;
use renamer::renamer::Renamer;
use renamer::renamer::helpers::HelperName;
use std::alloc::{AllocError, Global};

// The named symbols, ascending by module and number.
pub fn names(heap: Global, renamer: &Renamer<'_>, out: &mut Vec<u8>) -> Result<(), AllocError> {
    let mut rows = vec![in heap; NamedSymbol::default(); renamer.named()]?;
    // There is a row for each name, so this is not refused.
    let _ = renamer.list(&mut rows);
    write_each(&rows, out)
}

// The helpers of other chunks, ascending by chunk.
pub fn helpers(heap: Global, renamer: &Renamer<'_>, out: &mut Vec<u8>) -> Result<(), AllocError> {
    let mut rows = vec![in heap; HelperName::default(); renamer.helpers()]?;
    // There is a row for each helper, so this is not refused.
    let _ = renamer.list_helpers(&mut rows);
    write_each(&rows, out)
}

// The records, ascending by the bytes of their names.
pub fn records(heap: Global, renamer: &Renamer<'_>, out: &mut Vec<u8>) -> Result<(), AllocError> {
    let mut rows: Vec<NameRecord> = (0..renamer.records())
        .filter_map(|i| renamer.record_at(i))
        .collect(heap)?;
    write_records(&mut rows, out)
}
