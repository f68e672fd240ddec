//! Fast steps for operations of `bit_ops` at widths of up to 64 bits.

ghost use Rattle.std.specs.Prelude.{◌≡◌, ℕ, ◌-◌, ◌*◌, ◌^◌, ◌<◌, ◌≤◌, ◌==◌, not, List, slice_index, pos};
ghost use Rattle.bit_ops.specs.Operators as ops;
ghost use Rattle.step_program.specs.Values as values;

use crate::step::{Join, Sum, Take, Test};

// 2^width - 1
fn ones(width: u32) -> u64
    requires { (1 ≤ width) × (width ≤ 64) }
    ensures { result ≡ 2 ^ width - 1 }
{
    u64::MAX >> (64 - width)
}

impl Test {
    /// Whether two narrow slots hold the same number.
    pub fn same(of: u32, like: u32) -> Test
        ensures slots { (result.of ≡ of) × (result.like ≡ like) }
        ensures value { (xs : List ℕ) → slice_index xs of < 2 ^ 64
            → values.test_value xs result ≡ ops.bit (slice_index xs of == slice_index xs like) }
    {
        Test {
            of,
            like,
            mask: u64::MAX,
            differs: false,
        }
    }

    /// Whether two narrow slots hold different numbers.
    pub fn differ(of: u32, like: u32) -> Test
        ensures slots { (result.of ≡ of) × (result.like ≡ like) }
        ensures value { (xs : List ℕ) → slice_index xs of < 2 ^ 64
            → values.test_value xs result ≡ ops.bit (not (slice_index xs of == slice_index xs like)) }
    {
        Test {
            of,
            like,
            mask: u64::MAX,
            differs: true,
        }
    }
}

impl Take {
    /// So many bits of a narrow slot from a place on.
    pub fn bits(of: u32, from: u32, width: u32) -> Take
        requires place { from < 64 }
        requires width { (1 ≤ width) × (width ≤ 64) }
        ensures slots { (result.of ≡ of) × (result.from ≡ from) }
        ensures value { (xs : List ℕ) → values.take_value xs result ≡ ops.select (pos from) width (slice_index xs of) }
    {
        Take {
            of,
            from,
            mask: ones(width),
        }
    }
}

impl Join {
    /// A narrow slot to the left of another, which has `width` bits.
    pub fn to_left(high: u32, low: u32, width: u32) -> Join
        requires { width < 64 }
        ensures slots { (result.high ≡ high) × (result.low ≡ low) }
        ensures value { (xs : List ℕ) → slice_index xs high * 2 ^ width < 2 ^ 64 → slice_index xs low < 2 ^ width
            → values.join_value xs result ≡ ops.concat width (slice_index xs high) (slice_index xs low) }
    {
        Join {
            high,
            low,
            scale: 1 << width,
        }
    }
}

impl Sum {
    /// The sum of two narrow slots, modulo 2^width.
    pub fn modulo(left: u32, right: u32, width: u32) -> Sum
        requires { (1 ≤ width) × (width ≤ 64) }
        ensures slots { (result.left ≡ left) × (result.right ≡ right) }
        ensures value { (xs : List ℕ)
            → values.sum_value xs result ≡ ops.add width (slice_index xs left) (slice_index xs right) }
    {
        Sum {
            left,
            right,
            mask: ones(width),
        }
    }
}
