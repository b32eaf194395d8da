// The session while its modules are repaired.
ghost use Rattle.std.specs.Prelude.{◌≡◌, length};
ghost use Rattle.given_names.specs.Held.{given_in};

use crate::renamer::Renamer;

pub mod state;

/// A session whose top-level names are all given. It is a type of its own, without the calls that name: a root that were
/// named now could be captured in a module that is repaired already.
#[derive(Drop)]
pub struct NestedScopeRenamer<'a> {
    renamer: Renamer<'a>,
    // How many symbols have a name of the top level.
    rooted: usize,
    ghost all_rooted: { rooted ≡ length (given_in renamer.canonical_names) },
}
