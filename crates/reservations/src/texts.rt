// Rows that have a text: fixed texts, the rows of a list of names, and unresolved names.
ghost use Rattle.std.specs.Prelude.{◌≡◌, ℕ, List, vec_items};

use chunk_tables::parts::Unresolved;

/// What can be reserved row by row, so that one loop serves each list of names.
pub trait Text {
    ghost spells: { Self → List ℕ };

    fn text(&self) -> &[u8]
        ensures { result.now ≡ spells self.now };
}

impl Text for &'static [u8] {
    ghost spells = { λ t. t.now };

    fn text(&self) -> &[u8] {
        self
    }
}

impl Text for Vec<u8> {
    ghost spells = { λ t. vec_items t };

    fn text(&self) -> &[u8] {
        self.as_slice()
    }
}

impl Text for Unresolved {
    ghost spells = { λ u. vec_items u.name };

    fn text(&self) -> &[u8] {
        self.name.as_slice()
    }
}
