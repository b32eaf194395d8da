// The check of the limits.
ghost use Rattle.std.specs.Prelude.{◌≡◌, false};
ghost use Rattle.chunk_tables.specs.View.{chunk_of};
ghost use Rattle.chunk_faults.specs.LimitRows.{limit_tests};
ghost use Rattle.chunk_faults.specs.Tests.{least, told};

use chunk_tables::chunk::Chunk;
use names::refusal::Refusal;
use row_checks::rows::refuse_if;

/// Refuses a chunk that is over the limits. Whether memory is too small is no matter of the tables, and not asked here.
pub fn check_limits(chunk: &Chunk) -> Result<(), Refusal>
    ensures { told result ≡ least (limit_tests (chunk_of chunk.now) false) }
{
    refuse_if(chunk.is_too_large(), Refusal::OutsideLimit)
}
