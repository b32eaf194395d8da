// How many rows the modules of a chunk have together.
ghost use Rattle.std.specs.Prelude.{◌≡◌, ℕ, ◌-◌, ◌^◌, min};
ghost use Rattle.std.specs.Borrow.{Bor};
ghost use Rattle.chunk_tables.specs.Counted.{Counted};
ghost use Rattle.chunk_tables.specs.Limits.{in_all};
ghost use Rattle.chunk_tables.specs.View.{chunk_of};
ghost use Rattle.chunk_tables.specs.declared.chunk.Module.{Module as ModuleRow};

use crate::chunk::{Chunk, Module};

/// The rows of all modules, counted by their kind. A number past what a machine counts stays at the last one: that is
/// over every limit, and larger than any memory.
#[derive(Clone, Copy)]
pub struct Totals {
    pub scopes: usize,
    pub symbols: usize,
    pub references: usize,
}

// How many of something all modules have together, or the last number that a machine counts to.
fn total_of<F: Fn(&Module) -> usize>(modules: &[Module], count: F) -> usize
    requires { F.IsAlwaysCallable count }
    ensures { (counts : ModuleRow → ℕ) → ((m : Bor ModuleRow) (n : ℕ) → F.post count m n → n ≡ counts m.now) → result ≡ min (in_all counts modules.now) (2 ^ 64 - 1) }
{
    modules.iter().fold(
        0,
        |total: usize, module| total.saturating_add(count(module)),
    )
}

impl Totals {
    /// What the modules of a chunk have.
    pub fn of(chunk: &Chunk) -> Totals
        ensures { Counted (chunk_of chunk.now).modules result }
    {
        let modules = chunk.modules.as_slice();
        Totals {
            scopes: total_of(modules, |module| module.scopes.len()),
            symbols: total_of(modules, |module| module.symbols.len()),
            references: total_of(modules, |module| module.references.len()),
        }
    }
}
