// The records of a search or a session, as they are told at the end.
ghost use Rattle.std.specs.Prelude.{◌≡◌, flat_map};
ghost use Rattle.std.specs.List.Sorted.{IsPermutation};
ghost use Rattle.answer_lines.specs.Lines.{record_line};
ghost use Rattle.answer_lines.specs.Writing.{Writes};
ghost use Rattle.documents.specs.Records.{Ascending};

use answer_lines::piece::write_each;
use conflict_resolver::resolver::NameRecord;
use std::alloc::AllocError;

/// Puts the records into the order of their names, and writes a line for each. The order is that of the names' bytes, so
/// that two listings can be compared line by line, whatever the order in which names came on record.
pub fn write_records(records: &mut [NameRecord], out: &mut Vec<u8>) -> Result<(), AllocError>
    ensures same { IsPermutation records.old records.new }
    ensures ascending { Ascending records.new }
    ensures written { Writes out.old out.new result (flat_map record_line records.new) }
{
    records.sort_unstable();
    write_each(records, out)
}
