//! Bits at places. A place may lie outside of the number, on either side.

ghost use Rattle.std.specs.Prelude.{◌≡◌, ◌≤◌, ◌<◌, ◌+◌, ◌^◌};
ghost use Rattle.bit_ops.specs.Operators as ops;

use crate::numbers::{cut, ones};
use crate::shifts::{left, right};
use dt_core::limits::MAX_WIDTH;

/// The `width` bits from `place` upward; 0 outside.
pub fn selected(value: u128, place: i64, width: u32) -> u128
    requires { (1 ≤ width) × (width ≤ MAX_WIDTH) }
    ensures value { result ≡ ops.select place width value }
    ensures fits { result < 2 ^ width }
{
    let distance = u128::from(place.unsigned_abs());
    if place < 0 {
        cut(left(value, distance), width)
    } else {
        cut(right(value, distance), width)
    }
}

/// The value with other bits from `place` upward; what falls outside is lost.
pub fn inserted(value: u128, width: u32, place: i64, part: u128, count: u32) -> u128
    requires widths { (1 ≤ width) × (width ≤ MAX_WIDTH) × (1 ≤ count) × (count ≤ MAX_WIDTH) }
    requires fits { (value < 2 ^ width) × (part < 2 ^ count) }
    ensures value { result ≡ ops.insert width place count part value }
    ensures fits { result < 2 ^ width }
{
    let distance = place.unsigned_abs();
    if place < 0 {
        if distance < u64::from(count) {
            let lost = distance as u32;
            put(value, width, 0, part >> lost, count - lost)
        } else {
            value
        }
    } else if distance < u64::from(width) {
        put(value, width, distance as u32, part, count)
    } else {
        value
    }
}

// The value with the bits of the part from a place within on; those beyond the width are lost.
fn put(value: u128, width: u32, place: u32, part: u128, count: u32) -> u128
    requires widths { (place < width) × (width ≤ MAX_WIDTH) × (1 ≤ count) × (count ≤ MAX_WIDTH) }
    requires fits { (value < 2 ^ width) × (part < 2 ^ count) }
    ensures value { result ≡ ops.insert_at width place count part value }
    ensures fits { result < 2 ^ width }
{
    let mask = ones(count.min(width - place));
    (value & !(mask << place)) | ((part & mask) << place)
}

/// `high` to the left of `low`, which has `width` bits.
pub fn joined(high: u128, above: u32, low: u128, width: u32) -> u128
    requires widths { (1 ≤ above) × (1 ≤ width) × (above + width ≤ MAX_WIDTH) }
    requires fits { (high < 2 ^ above) × (low < 2 ^ width) }
    ensures value { result ≡ ops.concat width high low }
    ensures fits { result < 2 ^ (above + width) }
{
    (high << width) | low
}
