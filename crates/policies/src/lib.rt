// The policies under which names at the top level of a chunk are sought.
#![tactic(auto)]

ghost use Rattle.policies.specs.Laws.{NamesOfInnerSymbols, NoOtherNames};

pub mod chunk_policies;
pub mod file_policy;
pub mod inner_names;
pub mod own_module;

/// Stands for what an inner name is: the name of an inner symbol of a chunk module.
pub fn laws()
    ensures of_symbols { NamesOfInnerSymbols }
    ensures no_others { NoOtherNames }
{}
