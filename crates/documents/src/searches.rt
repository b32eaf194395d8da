// What a search answers.
ghost use Rattle.answer_lines.specs.Writing.{Writes};
ghost use Rattle.documents.specs.Searches.{found_line};

use answer_lines::piece::write_each;
use conflict_resolver::resolver::Resolved;
use itoa::Buffer;
use std::alloc::AllocError;

/// The name that was found, and the probes that it took, to the end of the line. What was asked for stands in front.
pub fn write_found(found: &Resolved, out: &mut Vec<u8>) -> Result<(), AllocError>
    ensures { Writes out.old out.new result (found_line found.now) }
{
    let mut digits = Buffer::new();
    let probes = digits.format(found.probes).as_bytes();
    let space: &[u8] = b" ";
    write_each(&[found.name.as_bytes(), space, probes, b"\n"], out)
}
