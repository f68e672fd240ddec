//! Comparisons.

ghost use Rattle.std.specs.Prelude.{◌≡◌, ◌≤◌, ◌<◌, ◌^◌};
ghost use Rattle.bit_ops.specs.Operators as ops;
ghost use Rattle.bit_ops.specs.Reading.{rank};

use dt_core::limits::MAX_WIDTH;

/// Whether `a` stands for less than `b` does.
pub fn is_less(a: u128, b: u128, width: u32, signed: bool) -> bool
    requires width { (1 ≤ width) × (width ≤ MAX_WIDTH) }
    requires fits { (a < 2 ^ width) × (b < 2 ^ width) }
    ensures { result ≡ ops.less signed width a b }
{
    ranked(a, width, signed) < ranked(b, width, signed)
}

/// Whether `a` stands for no more than `b` does.
pub fn is_at_most(a: u128, b: u128, width: u32, signed: bool) -> bool
    requires width { (1 ≤ width) × (width ≤ MAX_WIDTH) }
    requires fits { (a < 2 ^ width) × (b < 2 ^ width) }
    ensures { result ≡ ops.at_most signed width a b }
{
    ranked(a, width, signed) <= ranked(b, width, signed)
}

// A number that stands to others as what the number stands for does: with its sign bit turned where it is signed.
fn ranked(value: u128, width: u32, signed: bool) -> u128
    requires width { (1 ≤ width) × (width ≤ MAX_WIDTH) }
    requires fits { value < 2 ^ width }
    ensures { result ≡ rank signed width value }
{
    value ^ (u128::from(signed) << (width - 1))
}
