// The faults that a chunk's tables can have, in the order in which they are told.
#![tactic(auto)]

ghost use Rattle.chunk_faults.specs.Laws.{TellsTheLeastFault, PassesSoundTables};

/// Stands for what a verdict says: it tells the least fault, and where it tells none the tables are sound and the memory
/// is not too small.
pub fn laws()
    ensures least { TellsTheLeastFault }
    ensures sound { PassesSoundTables }
{}
