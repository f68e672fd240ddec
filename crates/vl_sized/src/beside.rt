//! Parts side by side.

ghost use Rattle.std.specs.Prelude.{◌≡◌, ◌≤◌, ◌<◌, ◌+◌, ◌^◌, min};
ghost use Rattle.dt_core.specs.declared.limits.TheConstants.{MAX_WIDTH};
ghost use Rattle.bit_ops.specs.Operators as ops;
ghost use Rattle.vl_value.specs.Meaning.{repeated};

use bit_ops::low;
use dt_core::bits::Bits;
use dt_core::limits::MAX_WIDTH;

/// Parts side by side, as far as a vector reaches: how many bits they have, and the lowest of these as a number.
#[derive(Clone, Copy, Debug, PartialEq, Eq)]
pub struct Beside {
    pub width: u32,
    pub value: u128,
    ghost most: { width ≤ MAX_WIDTH },
    ghost fits: { value < 2 ^ 128 },
}

impl Beside {
    /// No part.
    pub fn none() -> Beside
        ensures { (result.width ≡ 0) × (result.value ≡ 0) }
    {
        Beside { width: 0, value: 0 }
    }

    /// One part more, at the right.
    pub fn with(self, part: Bits) -> Beside
        ensures width { result.width ≡ min (self.width + part.width) MAX_WIDTH }
        ensures value { result.value ≡ ops.low MAX_WIDTH (ops.concat part.width self.value part.value) }
    {
        Beside {
            width: (self.width + part.width()).min(MAX_WIDTH),
            value: put_beside(self.value, part.value(), part.width()),
        }
    }

    /// So many copies, as far as a number reaches.
    pub fn copies(self, count: u32) -> u128
        ensures { result ≡ ops.low MAX_WIDTH (repeated count self.width (ops.low self.width self.value)) }
    {
        let one = low(self.value, self.width);
        let mut value = 0;
        let mut done = 0;
        while done < count {
            value = put_beside(value, one, self.width);
            done += 1;
        }
        value
    }
}

// A number to the left of another one of so many bits, as far as a number reaches.
fn put_beside(high: u128, right: u128, width: u32) -> u128
    requires { width ≤ MAX_WIDTH }
    ensures { result ≡ ops.low MAX_WIDTH (ops.concat width high right) }
{
    if width == MAX_WIDTH {
        return right;
    }
    (high << width).wrapping_add(right)
}
