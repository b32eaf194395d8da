// The search for a free name: a base, or the base with `$` and a number behind it.
#![tactic(auto)]

ghost use Rattle.conflict_resolver.specs.Cases.{Worked};

pub mod policy;
pub mod resolver;

// Stands for the worked searches: what the rules compute of each.
pub fn worked_searches()
    ensures { Worked }
{}
