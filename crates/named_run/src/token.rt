//! Tokens: what a channel carries for one cycle.

ghost use Rattle.std.specs.Prelude.{◌≡◌, ◌<◌, length, map, IsSomeAnd, slice_get, slice_set, option_map, Some};
ghost use Rattle.dt_core.specs.BitVectors.{plain};

use dt_core::bits::Bits;
use std::marker::Model;

/// The values of the registers that a channel carries, in one cycle, in the channel's order.
///
/// They are read and put one by one and without memory, so that one list serves for token after token.
#[derive(Debug, Drop)]
pub struct Values {
    bits: Vec<Bits>,
}

impl Model for Values {
    ghost use Rattle.std.specs.Prelude.{List, map};
    ghost use Rattle.dt_core.specs.BitVectors.{BitVector, plain};

    ghost Value = { List BitVector };

    ghost view = { λ v. map plain v.bits.items };
}

impl Values {
    /// These values.
    pub fn new(bits: Vec<Bits>) -> Values
        ensures { result ≡ map plain bits.items }
    {
        Values { bits }
    }

    /// How many there are.
    pub fn len(&self) -> usize
        ensures { result ≡ length self.now }
    {
        self.bits.len()
    }

    /// The value at place `k`.
    pub fn get(&self, k: usize) -> Bits
        requires { k < length self.now }
        ensures { slice_get self.now k ≡ Some (plain result) }
    {
        self.bits[k]
    }

    /// Puts another value of the same width at place `k`.
    pub fn set(&mut self, k: usize, value: Bits)
        requires { IsSomeAnd (slice_get self.old k) (λ b. b.width ≡ value.width) }
        ensures { self.new ≡ slice_set self.old k (plain value) }
    {
        self.bits[k] = value;
    }
}

/// What a channel carries for one cycle: the channel's number, the cycle, and the values of its registers in it.
#[derive(Debug, Drop)]
pub struct Token {
    pub channel: u32,
    pub cycle: u64,
    pub values: Values,
}
