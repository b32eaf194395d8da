// Names as keys.
ghost use Rattle.std.specs.Prelude.{◌≡◌, fold};
ghost use Rattle.keys.specs.Refs.{mixed};
ghost use Rattle.keys.specs.Names.{name_hash, name_under};
ghost use Rattle.names.proofs.Padding.{name_decides};
ghost use Rattle.keys.specs.NameOrder.{name_agrees, name_order};

use crate::key::{HashKey, OrderedKey};
use crate::mixing::mix;
use names::name::Name;

// The bytes mixed one after another, so that texts of the same bytes in another order differ in their hashes.
fn hash_bytes(bytes: &[u8]) -> u32
    ensures { result ≡ fold mixed 0 bytes.now }
{
    bytes.iter().fold(0, |h, b| mix(h, u32::from(*b)))
}

impl HashKey for Name {
    ghost hashed = { name_hash };

    ghost tells = { name_decides };

    fn hash(&self) -> u32 {
        hash_bytes(self.as_bytes())
    }
}

impl OrderedKey for Name {
    ghost under = { name_under };

    ghost order = { name_order };

    ghost agrees = { name_agrees };
}
