//! Shifts. The distance is any number; from the width on none of the number's bits is left.

ghost use Rattle.std.specs.Prelude.{◌≡◌, ◌≤◌, ◌<◌, ◌^◌, ◌*◌, ◌/◌, ◌%◌, min};
ghost use Rattle.bit_ops.specs.Operators as ops;

use crate::numbers::{cut, is_negative, turned};
use dt_core::limits::MAX_WIDTH;

/// `value` shifted to the left within `MAX_WIDTH` bits.
pub fn left(value: u128, distance: u128) -> u128
    ensures { result ≡ value * 2 ^ min distance MAX_WIDTH % 2 ^ MAX_WIDTH }
{
    if distance < 128 {
        value << (distance as u32)
    } else {
        0
    }
}

/// `value` shifted to the right.
pub fn right(value: u128, distance: u128) -> u128
    ensures { result ≡ value / 2 ^ min distance MAX_WIDTH }
{
    if distance < 128 {
        value >> (distance as u32)
    } else {
        0
    }
}

/// Shifted to the left; what passes the width is lost.
pub fn shift_left(value: u128, distance: u128, width: u32) -> u128
    requires { (1 ≤ width) × (width ≤ MAX_WIDTH) }
    ensures value { result ≡ ops.shift_left width value distance }
    ensures fits { result < 2 ^ width }
{
    cut(left(value, distance), width)
}

/// Shifted to the right; the sign bit comes in from the left where `signed`, else zeros.
pub fn shift_right(value: u128, distance: u128, width: u32, signed: bool) -> u128
    requires width { (1 ≤ width) × (width ≤ MAX_WIDTH) }
    requires fits { value < 2 ^ width }
    ensures value { result ≡ ops.arithmetic_right signed width value distance }
    ensures fits { result < 2 ^ width }
{
    let negative = is_negative(value, width, signed);
    turned(
        right(turned(value, width, negative), distance),
        width,
        negative,
    )
}
