// What a key is asked for.
ghost use Rattle.std.specs.Prelude.{◌≡◌, ℕ, Bool, Decides};
ghost use Rattle.std.specs.Ordering.{partial_lt};
ghost use Rattle.keys.specs.Order.{Strict};

/// What a table needs to know of a key. That two keys are equal has to mean that nothing tells them apart: where a key is found
/// its entry is replaced, key and all, and no caller may see a difference.
pub trait HashKey: Eq {
    // The number that `hash` answers.
    ghost hashed: { Self → ℕ };

    /// A number by which a table spreads keys over its buckets. Equal keys, being one value, have one number. Nothing else is
    /// asked of it: where many keys share a number a table gets slow, and answers the same.
    fn hash(&self) -> u32
        ensures { result ≡ hashed self.now };

    // `==` holds just where the two keys are one value.
    ghost tells: { (x y : Self) → Decides (Self.PartialEq.eq x y) (x ≡ y) };
}

/// A key by which a table can be listed. Of two different keys one stands below the other, so the entries have one order, and
/// what is printed depends neither on hashes nor on which key came first.
pub trait OrderedKey: HashKey + Ord {
    // Whether a key stands below another, by a definition of the key's own.
    ghost under: { Self → Self → Bool };

    ghost order: { Strict under };

    // `<` answers just that.
    ghost agrees: { (x y : Self) → partial_lt Self.PartialOrd.partial_cmp x y ≡ under x y };
}
