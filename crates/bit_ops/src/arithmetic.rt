//! Sums, differences, products, quotients and remainders.

ghost use Rattle.std.specs.Prelude.{◌≡◌, ◌≤◌, ◌<◌, ◌^◌, ◌/◌, ◌%◌, unsigned_abs};
ghost use Rattle.bit_ops.specs.Operators as ops;

use crate::numbers::{cut, is_negative, turned};
use dt_core::limits::MAX_WIDTH;

/// a + b modulo 2^width.
pub fn sum(a: u128, b: u128, width: u32) -> u128
    requires { (1 ≤ width) × (width ≤ MAX_WIDTH) }
    ensures value { result ≡ ops.add width a b }
    ensures fits { result < 2 ^ width }
{
    cut(a.wrapping_add(b), width)
}

/// a - b modulo 2^width.
pub fn difference(a: u128, b: u128, width: u32) -> u128
    requires { (1 ≤ width) × (width ≤ MAX_WIDTH) }
    ensures value { result ≡ ops.sub width a b }
    ensures fits { result < 2 ^ width }
{
    cut(a.wrapping_sub(b), width)
}

/// a * b modulo 2^width.
pub fn product(a: u128, b: u128, width: u32) -> u128
    requires { (1 ≤ width) × (width ≤ MAX_WIDTH) }
    ensures value { result ≡ ops.mul width a b }
    ensures fits { result < 2 ^ width }
{
    cut(a.wrapping_mul(b), width)
}

/// -a modulo 2^width.
pub fn negated(a: u128, width: u32) -> u128
    requires { (1 ≤ width) × (width ≤ MAX_WIDTH) }
    ensures value { result ≡ ops.negate width a }
    ensures fits { result < 2 ^ width }
{
    cut(0u128.wrapping_sub(a), width)
}

/// The quotient, truncated toward 0; 0 where the divisor is 0.
pub fn quotient(a: u128, b: u128, width: u32, signed: bool) -> u128
    requires width { (1 ≤ width) × (width ≤ MAX_WIDTH) }
    requires fits { (a < 2 ^ width) × (b < 2 ^ width) }
    ensures value { result ≡ ops.div signed width a b }
    ensures fits { result < 2 ^ width }
{
    if b == 0 {
        return 0;
    }
    if !signed {
        return divided(a, b);
    }
    // Both answers are there before the choice, which half of all calls would foretell wrongly as a branch.
    let size = divided(magnitude(a, width, signed), magnitude(b, width, signed));
    let opposite = negated(size, width);
    if is_negative(a, width, signed) == is_negative(b, width, signed) {
        size
    } else {
        opposite
    }
}

/// The remainder, with the sign of the first operand; 0 where the divisor is 0.
pub fn remainder(a: u128, b: u128, width: u32, signed: bool) -> u128
    requires width { (1 ≤ width) × (width ≤ MAX_WIDTH) }
    requires fits { (a < 2 ^ width) × (b < 2 ^ width) }
    ensures value { result ≡ ops.rem signed width a b }
    ensures fits { result < 2 ^ width }
{
    if b == 0 {
        return 0;
    }
    if !signed {
        return rest_of(a, b);
    }
    let rest = rest_of(magnitude(a, width, signed), magnitude(b, width, signed));
    let opposite = negated(rest, width);
    if is_negative(a, width, signed) {
        opposite
    } else {
        rest
    }
}

// The absolute value of what a number stands for.
fn magnitude(value: u128, width: u32, signed: bool) -> u128
    requires width { (1 ≤ width) × (width ≤ MAX_WIDTH) }
    requires fits { value < 2 ^ width }
    ensures value { result ≡ unsigned_abs (ops.integer signed width value) }
    ensures fits { result < 2 ^ width }
{
    let negative = is_negative(value, width, signed);
    turned(value, width, negative) + u128::from(negative)
}

// a / b. A machine divides numbers of 64 bits by one instruction, longer ones by a call.
fn divided(a: u128, b: u128) -> u128
    requires { 0 < b }
    ensures { result ≡ a / b }
{
    if a.max(b) <= u128::from(u64::MAX) {
        u128::from(a as u64 / b as u64)
    } else {
        a / b
    }
}

// a % b, likewise
fn rest_of(a: u128, b: u128) -> u128
    requires { 0 < b }
    ensures { result ≡ a % b }
{
    if a.max(b) <= u128::from(u64::MAX) {
        u128::from(a as u64 % b as u64)
    } else {
        a % b
    }
}
