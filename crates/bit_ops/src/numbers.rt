//! Numbers of a width, as numbers alone.

ghost use Rattle.std.specs.Prelude.{◌≡◌, ◌≤◌, ◌<◌, ◌^◌, ◌-◌};
ghost use Rattle.bit_ops.specs.Operators as ops;
ghost use Rattle.bit_ops.specs.Reading.{is_negative, turned};

use dt_core::limits::MAX_WIDTH;

/// The low `width` bits of a number.
pub fn low(value: u128, width: u32) -> u128
    requires { width ≤ MAX_WIDTH }
    ensures { result ≡ ops.low width value }
{
    if width == MAX_WIDTH {
        value
    } else {
        value & ((1u128 << width) - 1)
    }
}

/// The sum of two numbers, modulo 2^width.
pub fn add(left: u128, right: u128, width: u32) -> u128
    requires { width ≤ MAX_WIDTH }
    ensures { result ≡ ops.add width left right }
{
    low(left.wrapping_add(right), width)
}

/// A number of `from` bits at the larger width of `to` bits: extended by its sign where it is signed, else by zeros.
pub fn extend(value: u128, from: u32, to: u32, signed: bool) -> u128
    requires widths { (1 ≤ from) × (from ≤ to) × (to ≤ MAX_WIDTH) }
    requires fits { value < 2 ^ from }
    ensures { result ≡ ops.extend signed from to value }
{
    if signed && value >= 1 << (from - 1) {
        value + (ones(to) - ones(from))
    } else {
        value
    }
}

// 2^width - 1, without a branch
pub(crate) fn ones(width: u32) -> u128
    requires { (1 ≤ width) × (width ≤ MAX_WIDTH) }
    ensures { result ≡ 2 ^ width - 1 }
{
    u128::MAX >> (MAX_WIDTH - width)
}

// The low bits, as `low` gives them, for the widths that bit vectors have: without a branch.
pub(crate) fn cut(value: u128, width: u32) -> u128
    requires { (1 ≤ width) × (width ≤ MAX_WIDTH) }
    ensures value { result ≡ ops.low width value }
    ensures fits { result < 2 ^ width }
{
    value & ones(width)
}

// Whether a number stands for one below 0.
pub(crate) fn is_negative(value: u128, width: u32, signed: bool) -> bool
    requires width { (1 ≤ width) × (width ≤ MAX_WIDTH) }
    requires fits { value < 2 ^ width }
    ensures { result ≡ is_negative (ops.integer signed width value) }
{
    signed && value >> (width - 1) != 0
}

// The number with each bit turned where `all` holds, else the number.
pub(crate) fn turned(value: u128, width: u32, all: bool) -> u128
    requires width { (1 ≤ width) × (width ≤ MAX_WIDTH) }
    requires fits { value < 2 ^ width }
    ensures value { result ≡ turned all width value }
    ensures fits { result < 2 ^ width }
{
    if all { ones(width) - value } else { value }
}
