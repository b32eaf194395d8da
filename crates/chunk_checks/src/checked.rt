// A chunk whose tables passed the checks.
ghost use Rattle.std.specs.Prelude.{◌≡◌, Some, MatchResult};
ghost use Rattle.names.specs.Refusals.{number_of};
ghost use Rattle.chunk_tables.specs.Formats.{of_code};
ghost use Rattle.chunk_tables.specs.View.{chunk_of};
ghost use Rattle.chunk_faults.specs.Sound.{Sound};
ghost use Rattle.chunk_checks.specs.Checking.{Passes, Fails};

use crate::tables::check_chunk;
use chunk_tables::chunk::Chunk;
use chunk_tables::format::Format;
use names::refusal::Refusal;
use session_memory::sizes::MemorySizes;
use std::alloc::Global;

/// A chunk whose tables are sound. Only the check makes one, and nothing changes it, so whoever is handed one can follow
/// every number in it without asking again whether there is such a row.
#[derive(Drop)]
pub struct CheckedChunk {
    chunk: Chunk,
    ghost sound: { ∥ Sound (chunk_of chunk) ∥₁ },
}

/// Why a chunk was not granted, and the chunk as it was handed over, so that a caller can mend it and try again.
#[derive(Drop)]
pub struct RefusedChunk {
    pub refusal: Refusal,
    pub chunk: Chunk,
}

impl CheckedChunk {
    /// Checks the tables of a chunk, and whether memory of these sizes is enough for it. A refusal tells the number of the
    /// least fault, so that two checks of one chunk never tell different ones. The heap is for indexes that are let go
    /// again; without memory for them the check only takes longer.
    pub fn check(
        heap: Global,
        chunk: Chunk,
        sizes: &MemorySizes,
    ) -> Result<CheckedChunk, RefusedChunk>
        ensures verdict { MatchResult result (λ k. Passes (chunk_of chunk) sizes.now) (λ r. Fails (chunk_of chunk) sizes.now (number_of r.refusal)) }
        ensures tables { MatchResult result (λ k. k.chunk ≡ chunk) (λ r. r.chunk ≡ chunk) }
    {
        match check_chunk(heap, &chunk, sizes) {
            Ok(()) => Ok(CheckedChunk { chunk }),
            Err(refusal) => Err(RefusedChunk { refusal, chunk }),
        }
    }

    /// The tables, to be read only.
    pub fn chunk(&self) -> &Chunk
        ensures tables { result.now ≡ self.now.chunk }
        ensures sound { ∥ Sound (chunk_of self.now.chunk) ∥₁ }
    {
        &self.chunk
    }

    /// The format whose code the chunk has.
    pub fn format(&self) -> Format
        ensures { of_code (chunk_of self.now.chunk).format ≡ Some result }
    {
        let Ok(format) = Format::try_from(self.chunk.format) else {
            unreachable()
        };
        format
    }

    /// Gives the chunk back, as it was when it was handed over.
    pub fn into_chunk(self) -> Chunk
        ensures { result ≡ self.chunk }
    {
        let CheckedChunk { chunk } = self;
        chunk
    }
}
