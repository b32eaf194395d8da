// The lines of the output that only this program has. A name need not be UTF-8, so it is written by its bytes.
ghost use Rattle.std.specs.Prelude.{◌≡◌, ℕ, List, IfOk, ◌++◌, codes};
ghost use Rattle.answer_lines.specs.Lines.{refused_line};
ghost use Rattle.answer_lines.specs.Writing.{Writes};
ghost use Rattle.documents.specs.Searches.{found_line};
ghost use Rattle.conflict_resolver.specs.Held.{rows};
ghost use Rattle.resolve_names.specs.Listing.{Lists};

use answer_lines::piece::write_each;
use conflict_resolver::resolver::{ConflictResolver, NameRecord, Resolved};
use documents::searches::write_found;
use names::refusal::Refusal;
use std::alloc::{AllocError, Global};

/// A refusal of what a line asks for the name.
pub fn name_refused(name: &[u8], refusal: Refusal, out: &mut Vec<u8>) -> Result<(), AllocError>
    ensures { Writes out.old out.new result (name.now ++ codes " " ++ refused_line refusal) }
{
    write_each(&[name, b" "], out)?;
    answer_lines::refused(refusal, out)
}

pub fn resolved(base: &[u8], found: &Resolved, out: &mut Vec<u8>) -> Result<(), AllocError>
    ensures { Writes out.old out.new result (base.now ++ codes " -> " ++ found_line found.now) }
{
    write_each(&[base, b" -> "], out)?;
    write_found(found, out)
}

/// The records, a line each, by rising names: as the resolver lists them. Where memory runs out a part of them may stand there,
/// behind what was there.
pub fn records(
    heap: Global,
    resolver: &ConflictResolver,
    out: &mut Vec<u8>,
) -> Result<(), AllocError>
    ensures listed { IfOk result (λ _. Lists (rows resolver.now) out.old out.new) }
    ensures kept { (written : List ℕ) × (out.new.items ≡ out.old.items ++ written) }
{
    let mut records = vec![in heap; NameRecord::default(); resolver.len()]?;
    let Ok(count) = resolver.list(&mut records) else {
        unreachable()
    };
    write_each(&records[..count], out)
}
