//! Numbers of any size as values at a size: whole vectors, and some of their bits.

ghost use Rattle.std.specs.Prelude.{◌≡◌, ◌≤◌, ◌^◌, ◌&&◌};
ghost use Rattle.dt_core.specs.declared.limits.TheConstants.{MAX_WIDTH};
ghost use Rattle.bit_ops.specs.Operators as ops;
ghost use Rattle.vl_value.specs.Things.{width_of};
ghost use Rattle.vl_value.specs.Things as things;
ghost use Rattle.vl_width.specs.Objects.{plain_shape};
ghost use Rattle.vl_sized.specs.Worth.{IsCutOut, IsWithin, IsNear};

use crate::select::whole_size;
use bit_ops::{cut_to, select};
use dt_core::bits::Bits;
use dt_core::limits::MAX_WIDTH;
use vl_width::number::Constant;
use vl_width::shape::Shape;
use vl_width::size::{Size, both_signed};
use vl_width::term::sized;

/// The low bits of a number.
pub fn low_bits(number: u128, size: Size) -> Bits
    ensures width { result.width ≡ size.width }
    ensures value { result.value ≡ ops.low size.width number }
{
    cut_to(Bits::of(MAX_WIDTH, number), size.width)
}

/// The number of a vector of this shape, extended by its sign where both are signed.
pub fn extended(number: u128, shape: Shape, size: Size) -> Bits
    ensures width { result.width ≡ size.width }
    ensures value { let s = shape.signed && size.signed in
        result.value ≡ ops.extend s (width_of (plain_shape shape)) size.width number }
{
    let width = whole_size(shape).width;
    match Bits::new(width, number) {
        Some(bits) => sized(
            Constant {
                bits,
                signed: shape.signed,
            },
            size,
        ),
        None => beyond(number, width, both_signed(shape.signed, size.signed), size),
    }
}

// A number of more bits than its width.
fn beyond(number: u128, width: u32, signed: bool, size: Size) -> Bits
    requires width { (1 ≤ width) × (width ≤ MAX_WIDTH) }
    requires beyond { 2 ^ width ≤ number }
    ensures width { result.width ≡ size.width }
    ensures value { result.value ≡ ops.extend signed width size.width number }
{
    if signed {
        low_bits(number - (1 << width), size)
    } else {
        low_bits(number, size)
    }
}

/// So many bits of a vector's number, from an index upward; none is a place where no bits lie.
pub fn cut_out(number: u128, shape: Shape, from: Option<i64>, count: u32, size: Size) -> Bits
    requires { IsWithin from }
    ensures width { result.width ≡ size.width }
    ensures value { IsCutOut (plain_shape shape) from count number size.width result.value }
{
    match from {
        Some(from) => bits_from(number, place_of(shape, from, count), count, size),
        None => low_bits(0, size),
    }
}

/// The place of the rightmost of so many indices from one upward.
pub fn place_of(shape: Shape, from: i64, count: u32) -> i64
    requires { IsNear from }
    ensures { result ≡ things.place_of (plain_shape shape) from count }
{
    let right = i64::from(shape.right);
    if shape.right <= shape.left {
        from - right
    } else {
        right - (from + (i64::from(count) - 1))
    }
}

// So many bits of a number from a place upward.
fn bits_from(number: u128, place: i64, count: u32, size: Size) -> Bits
    ensures width { result.width ≡ size.width }
    ensures value { result.value ≡ ops.low size.width (ops.select place count number) }
{
    let bits = count.min(size.width);
    if bits == 0 {
        return low_bits(0, size);
    }
    low_bits(
        select(Bits::of(MAX_WIDTH, number), place, bits).value(),
        size,
    )
}
