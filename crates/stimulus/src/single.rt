//! Rows of single digits: each value is one digit, so a row's end is known before it is read, and it's read at once.

ghost use Rattle.std.specs.Prelude.{◌≡◌, ◌+◌, ◌-◌, ◌*◌, ◌<◌, ◌≤◌, ◌==◌, ◌||◌, length, map, slice_index, IsTrue, IfOk};
ghost use Rattle.stimulus.specs.Calls.Single as single;

use crate::digits::digit_of;
use std::alloc::{AllocError, Global};

// A number above each digit that is a value of this width, and above no other one.
fn digit_limit(width: u32) -> u8
    ensures { result ≡ single.digit_limit width }
{
    match width {
        0 => 1,
        1 => 2,
        2 => 4,
        3 => 8,
        _ => 16,
    }
}

/// For each width a number above each digit that is a value of it, and above no other one.
pub(crate) fn digit_limits(alloc: Global, widths: &[u32]) -> Result<Vec<u8>, AllocError>
    ensures { IfOk result (λ v. v.items ≡ map single.digit_limit widths.now) }
{
    let mut limits = Vec::with_capacity(alloc, widths.len())?;
    for width in widths {
        limits.push(digit_limit(*width))?;
    }
    Ok(limits)
}

// Whether an LF stands where a row of so many digits ends.
fn has_end(bytes: &[u8], count: usize) -> bool
    ensures { IsTrue result → single.HasEnd bytes.now count }
{
    count > 0 && count <= bytes.len() / 2 && bytes[2 * count - 1] == b'\n'
}

// Whether a value ends before this byte: the last one ends at the row's end, each other one before a space.
fn is_apart(byte: u8, last: bool) -> bool
    ensures { result ≡ (last || byte == 32) }
{
    last || byte == b' '
}

/// Reads a row of single digits, each below its limit, that stands at the head of the bytes; false where none does, and
/// then some values may be others.
pub(crate) fn read_single(bytes: &[u8], limits: &[u8], values: &mut [u128]) -> bool
    requires size { length values.old ≡ length limits.now }
    ensures size { length values.new ≡ length values.old }
    ensures some { IsTrue result → 0 < length limits.now }
    ensures reads { IsTrue result → single.AreSingle limits.now bytes.now values.new }
{
    if !has_end(bytes, limits.len()) {
        return false;
    }
    for (k, limit) in limits.iter().enumerate() {
        let digit = digit_of(bytes[2 * k]);
        if digit >= *limit {
            return false;
        }
        if !is_apart(bytes[2 * k + 1], k + 1 == limits.len()) {
            return false;
        }
        values[k] = u128::from(digit);
    }
    true
}
