//! What all bits of a vector are together.

ghost use Rattle.std.specs.Prelude.{◌≡◌};
ghost use Rattle.bit_ops.specs.Operators as ops;

use crate::numbers::ones;
use dt_core::bits::Bits;

/// Whether each bit is 1.
pub fn is_all_ones(a: Bits) -> bool
    ensures { result ≡ ops.all_ones a.width a.value }
{
    a.value() == ones(a.width())
}

/// Whether some bit is 1: whether the vector holds as a condition.
pub fn holds(a: Bits) -> bool
    ensures { result ≡ ops.holds a.value }
{
    a.value() != 0
}

/// Whether the number of ones is odd.
pub fn is_odd(a: Bits) -> bool
    ensures { result ≡ ops.is_odd a.width a.value }
{
    a.value().count_ones() % 2 == 1
}
