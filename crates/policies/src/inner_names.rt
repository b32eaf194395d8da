// The set of the inner names of a chunk, in memory that the caller makes, hands over and gets back.
ghost use Rattle.chunk_tables.specs.View.{chunk_of};
ghost use Rattle.policies.specs.Sets.{HoldsInnerNames};

use chunk_tables::chunk::Chunk;
use keyed_table::table::Table;
use names::name::Name;
use names::refusal::Refusal;
use session_memory::memory::InnerNameSlot;

mod filling;
pub mod set;

/// The names that are bound below the top level of the chunk in its output: in the scopes of functions and blocks, and in
/// the root of each wrapped module, which is printed as the body of a function. A reference that the bundler prints can
/// stand anywhere, so none of these names may be its name:
///
/// ```js
/// var require_lib$1 = /* a helper */;
/// function page(require_lib) { return require_lib$1(); } // `require_lib` would call the parameter
/// ```
///
/// The set is a table with nothing under its names. Its keys are names of their own, not parts of the chunk, since the
/// memory is made before the chunk is known and outlives it.
#[derive(Drop)]
pub struct InnerBindingNames<'a> {
    chunk: &'a Chunk,
    names: Table<Name, ()>,
    // The set has the inner names of the chunk, and no others.
    ghost filled: { HoldsInnerNames (chunk_of chunk.now) names.entries },
}

/// Why a set could not be filled, and the memory that it was to be filled in.
#[derive(Drop)]
pub struct InnerNamesRefused {
    pub refusal: Refusal,
    pub slots: Vec<InnerNameSlot>,
}
