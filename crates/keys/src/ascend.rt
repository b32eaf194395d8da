// Keys in order.
ghost use Rattle.std.specs.Prelude.{Decides};
ghost use Rattle.keys.specs.Order.{Rising};

use crate::key::OrderedKey;

/// Whether the keys rise, without two that are equal. It is one check for all keys: whoever takes a list by rising numbers can
/// ask it, and knows then that none stands there twice.
pub fn ascends<K: OrderedKey>(keys: &[K]) -> bool
    ensures { Decides result (Rising K.under keys.now) }
{
    keys.is_sorted_by(|a, b| a < b)
}
