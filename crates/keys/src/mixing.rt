// The step of which the hashes of keys are made.
ghost use Rattle.std.specs.Prelude.{◌≡◌};
ghost use Rattle.keys.specs.Refs.{mixed};

// A word mixed into a hash. The product spreads the word's bits upward, and the shift brings some of them down again, since
// a table looks at a hash modulo its number of slots.
pub(crate) fn mix(h: u32, w: u32) -> u32
    ensures { result ≡ mixed h w }
{
    let x = h.wrapping_add(w).wrapping_mul(0x9e37_79b9);
    x.wrapping_add(x >> 15)
}
