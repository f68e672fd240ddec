//! Whole numbers that constants stand for: they have up to 128 bits, and a sign.

ghost use Rattle.std.specs.Prelude.{IfSome, IfNone, ◌+ℤ◌, ◌≡◌, ◌≤◌, ◌+◌, ◌-◌, ◌*◌, ◌^◌, ◌↔◌, IsTrue, false, min, int_le, int_lt, pos, ◌-ℤ◌, unsigned_abs};
ghost use Rattle.vl_sized.specs.Nodes.{whole_of};
ghost use Rattle.vl_sized.specs.Wholes.{integer, if_width};
ghost use Rattle.vl_sized.specs.Worth.{IsWithin, Stands};
ghost use Rattle.vl_sized.specs.Sensed.{bits_told, bits_between};

use bit_ops::{Unary, unary};
use dt_core::bits::Bits;
use dt_core::limits::MAX_WIDTH;
use vl_width::number::Constant;

// 2^40, beyond all indices of vectors
const FAR: u128 = 1_099_511_627_776;

/// A whole number: its size, or -1 less its size.
#[derive(Clone, Copy, Debug, PartialEq, Eq)]
pub struct Whole {
    pub negative: bool,
    pub size: u128,
}

impl Whole {
    /// What a number of a width stands for.
    pub fn of(number: Constant) -> Whole
        ensures { integer result ≡ whole_of number }
    {
        let bits = number.bits;
        if !number.signed {
            return Whole::natural(bits.value());
        }
        if is_high(bits) {
            return Whole {
                negative: true,
                size: unary(Unary::Not, bits).value(),
            };
        }
        Whole::natural(bits.value())
    }

    // A number without a sign.
    fn natural(size: u128) -> Whole
        ensures { integer result ≡ pos size }
    {
        Whole {
            negative: false,
            size,
        }
    }

    /// Whether it is below 1.
    pub fn is_below_one(self) -> bool
        ensures { result ≡ int_lt (integer self) (pos 1) }
    {
        self.negative || self.size == 0
    }

    /// Whether it is no more than another one.
    pub fn is_at_most(self, other: Whole) -> bool
        ensures { result ≡ int_le (integer self) (integer other) }
    {
        match (self.negative, other.negative) {
            (false, false) => self.size <= other.size,
            (false, true) => false,
            (true, false) => true,
            (true, true) => other.size <= self.size,
        }
    }

    /// How many bits it tells, where a vector has so many.
    pub fn bits(self) -> Option<u32>
        ensures { result ≡ bits_told (integer self) }
    {
        if self.is_below_one() || self.size > u128::from(MAX_WIDTH) {
            return None;
        }
        Some(self.size as u32)
    }

    /// How many bits so many copies of some bits have, where a vector has so many; the bits are none where no vector has
    /// them.
    pub fn times(self, bits: Option<u32>) -> Option<u32>
        requires { int_lt (integer self) (pos 1) ≡ false }
        ensures { (w : _) → bits ≡ if_width w → result ≡ if_width (unsigned_abs (integer self) * w) }
    {
        let bits = bits?;
        let copies = self.bits()?;
        let total = u64::from(copies) * u64::from(bits);
        if total > u64::from(MAX_WIDTH) {
            return None;
        }
        Some(total as u32)
    }

    /// How many bits there are from it to another one, where a vector has so many.
    pub fn bits_to(self, other: Whole) -> Option<u32>
        ensures { result ≡ bits_between (integer self) (integer other) }
    {
        let apart = self.apart(other);
        if apart >= u128::from(MAX_WIDTH) {
            return None;
        }
        Some(apart as u32 + 1)
    }

    /// The number as an index; none where it is so far away that no bit of a vector lies there.
    pub fn near(self) -> Option<i64>
        ensures stands { Stands (integer self) result }
        ensures within { IsWithin result }
    {
        self.reached()
    }

    /// The lowest of so many indices from it downward; none where it is so far away that no bit of a vector lies there.
    pub fn down_from(self, count: u32) -> Option<i64>
        ensures stands { Stands ((integer self -ℤ pos count) +ℤ pos 1) result }
        ensures within { IsWithin result }
    {
        match self.reached() {
            Some(highest) => Some(highest - i64::from(count) + 1),
            None => None,
        }
    }

    // The number, where it is less than 2^40 from 0.
    fn reached(self) -> Option<i64>
        ensures some { IfSome result (λ z. (z ≡ integer self) × (unsigned_abs z ≤ 2 ^ 40)) }
        ensures none { IfNone result (2 ^ 40 ≤ unsigned_abs (integer self)) }
    {
        if self.size >= FAR {
            return None;
        }
        let size = self.size as i64;
        if self.negative {
            Some(-1 - size)
        } else {
            Some(size)
        }
    }

    // How far it is from another one; 2^128 - 1 where it is further.
    fn apart(self, other: Whole) -> u128
        ensures { result ≡ min (unsigned_abs (integer self -ℤ integer other)) (2 ^ 128 - 1) }
    {
        if self.negative == other.negative {
            self.size.abs_diff(other.size)
        } else {
            self.size.saturating_add(other.size).saturating_add(1)
        }
    }
}

// Whether a vector's leftmost bit is 1.
fn is_high(a: Bits) -> bool
    ensures { IsTrue result ↔ (2 ^ (a.width - 1) ≤ a.value) }
{
    a.value() >= 1 << (a.width() - 1)
}
