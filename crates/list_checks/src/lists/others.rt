// The other chunks from which symbols are imported.
ghost use Rattle.std.specs.Prelude.{◌≡◌, not, nat_lt};
ghost use Rattle.chunk_tables.specs.View.{chunk_of, other_of};
ghost use Rattle.chunk_faults.specs.ListRows.{not_above, other_tests};
ghost use Rattle.chunk_faults.specs.Tests.{least, told};

use super::entries::has_missing;
use super::members::row_before;
use chunk_tables::chunk::{Chunk, OtherChunk};
use hints::has_hint;
use keys::ascend::ascends;
use keys::refs::ChunkIdx;
use names::refusal::Refusal;
use row_checks::rows::refuse_if;

// Whether the second number does not stand above the first. That keys ascend is told by one check alone.
fn is_not_above(first: ChunkIdx, second: ChunkIdx) -> bool
    ensures { result ≡ not (nat_lt first.0 second.0) }
{
    !ascends(&[first, second])
}

fn is_out_of_order(chunk: &Chunk, k: usize, other: &OtherChunk) -> bool
    ensures { result ≡ not_above (chunk_of chunk.now) k (other_of other.now) }
{
    row_before(&chunk.other_chunks, k).is_some_and(|before| is_not_above(before.index, other.index))
}

// Refuses the chunk with the smallest number of a test that holds.
pub(crate) fn check_other(chunk: &Chunk, k: usize, other: &OtherChunk) -> Result<(), Refusal>
    ensures { told result ≡ least (other_tests (chunk_of chunk.now) k (other_of other.now)) }
{
    refuse_if(has_missing(chunk, &other.imports), Refusal::OutOfRange)?;
    refuse_if(is_out_of_order(chunk, k, other), Refusal::OutOfOrder)?;
    refuse_if(!has_hint(&other.name), Refusal::BadName)
}
