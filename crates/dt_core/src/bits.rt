//! Bit vectors.

ghost use Rattle.std.specs.Prelude.{◌≡◌, ◌↔◌, ◌^◌, ◌<◌, ◌≤◌, IsSome, IfSome, IsTrue};
ghost use Rattle.dt_core.specs.declared.limits.TheConstants.{MAX_WIDTH};

use crate::limits::MAX_WIDTH;

/// A bit vector: its width, from 1 to `MAX_WIDTH` bits, and its bits as a number below 2^width.
#[derive(Clone, Copy, Debug, PartialEq, Eq)]
pub struct Bits {
    width: u32,
    value: u128,
    ghost wide: { (1 ≤ width) × (width ≤ MAX_WIDTH) },
    ghost fits: { value < 2 ^ width },
}

impl Bits {
    /// The bit vector of this width and value; none where the width is out of range or the value has more bits.
    pub fn new(width: u32, value: u128) -> Option<Bits>
        ensures some { IsSome result ↔ ((1 ≤ width) × (width ≤ MAX_WIDTH) × (value < 2 ^ width)) }
        ensures value { IfSome result (λ b. (b.width ≡ width) × (b.value ≡ value)) }
    {
        if width < 1 || width > MAX_WIDTH || !fits(width, value) {
            return None;
        }
        Some(Bits { width, value })
    }

    /// The bit vector of this width and of a value that fits it.
    pub fn of(width: u32, value: u128) -> Bits
        requires wide { (1 ≤ width) × (width ≤ MAX_WIDTH) }
        requires fits { value < 2 ^ width }
        ensures width { result.width ≡ width }
        ensures value { result.value ≡ value }
    {
        Bits { width, value }
    }

    /// Its width in bits.
    pub fn width(&self) -> u32
        ensures { result ≡ self.now.width }
    {
        self.width
    }

    /// Its bits as a number, the lowest bit first.
    pub fn value(&self) -> u128
        ensures { result ≡ self.now.value }
    {
        self.value
    }
}

// Whether so many bits hold the value. A shift by all the bits of a `u128` has no meaning, and none is needed.
fn fits(width: u32, value: u128) -> bool
    requires { width ≤ MAX_WIDTH }
    ensures { IsTrue result ↔ (value < 2 ^ width) }
{
    width == MAX_WIDTH || value >> width == 0
}
