//! Values in a base that is a power of two: each digit stands for so many bits of the number.

ghost use Rattle.std.specs.Prelude.{◌≡◌, ◌≤◌, ◌<◌, ◌+◌, ◌-◌, ◌*◌, ◌/◌, ◌%◌, ◌^◌, ◌++◌, OnOk};
ghost use Rattle.netlist.specs.Message as text;

use dt_core::append::push;
use dt_core::fault::NoMemory;
use dt_core::limits::MAX_WIDTH;

/// Appends a value of this width in the base 2^size: all digits of the width, or the fewest.
pub(crate) fn append_radix(
    out: &mut Vec<u8>,
    size: u32,
    fewest: bool,
    width: u32,
    value: u128,
) -> Result<(), NoMemory>
    requires size { (1 ≤ size) × (size ≤ 4) }
    requires width { width ≤ MAX_WIDTH }
    ensures { OnOk result (out.new.items ≡ out.old.items ++ text.radix_text fewest size width value) }
{
    if fewest {
        append_digits(out, size, fewest_digits(size, value), value)
    } else {
        append_digits(out, size, all_digits(size, width), value)
    }
}

// How many digits a width has.
fn all_digits(size: u32, width: u32) -> u32
    requires size { (1 ≤ size) × (size ≤ 4) }
    requires width { width ≤ MAX_WIDTH }
    ensures count { result ≡ (width + (size - 1)) / size }
    ensures within { size * result < size + MAX_WIDTH }
{
    (width + (size - 1)) / size
}

// How many digits a number has, one at least.
fn fewest_digits(size: u32, value: u128) -> u32
    requires { (1 ≤ size) × (size ≤ 4) }
    ensures count { result ≡ text.digit_count (2 ^ size) value }
    ensures within { size * result < size + MAX_WIDTH }
{
    all_digits(size, bit_count(value)).max(1)
}

// How many bits a number has, none for 0.
fn bit_count(value: u128) -> u32
    ensures below { value < 2 ^ result }
    ensures fewest { 2 ^ result ≤ 2 * value + 1 }
    ensures within { result ≤ MAX_WIDTH }
{
    MAX_WIDTH - value.leading_zeros()
}

// Appends the lowest `count` digits of a number, from the left.
fn append_digits(out: &mut Vec<u8>, size: u32, count: u32, value: u128) -> Result<(), NoMemory>
    requires size { (1 ≤ size) × (size ≤ 4) }
    requires within { size * count < size + MAX_WIDTH }
    ensures { OnOk result (out.new.items ≡ out.old.items ++ text.digits (2 ^ size) count value) }
{
    let mut left = count;
    while left > 0 {
        left -= 1;
        push(out, &[digit_at(size, left, value)])?;
    }
    Ok(())
}

// The digit at a place, from 0 at the right.
fn digit_at(size: u32, place: u32, value: u128) -> u8
    requires size { size ≤ 4 }
    requires within { size * place < MAX_WIDTH }
    ensures { result ≡ text.digit (value / 2 ^ (size * place) % 2 ^ size) }
{
    digit(low_bits(value >> (size * place), size))
}

// The lowest bits of a number, four at most.
fn low_bits(value: u128, count: u32) -> u8
    requires { count ≤ 4 }
    ensures { result ≡ value % 2 ^ count }
{
    (value & ((1 << count) - 1)) as u8
}

// The byte of a digit.
fn digit(value: u8) -> u8
    requires { value < 16 }
    ensures { result ≡ text.digit value }
{
    if value < 10 {
        b'0' + value
    } else {
        b'a' + (value - 10)
    }
}
