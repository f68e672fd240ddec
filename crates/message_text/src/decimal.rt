//! Values in decimal.

ghost use Rattle.std.specs.Prelude.{◌≡◌, ◌≤◌, ◌<◌, ◌+◌, ◌-◌, ◌^◌, ◌++◌, length, replicate, decimal, OnOk, if◌then◌else◌};
ghost use Rattle.bit_ops.specs.Operators.{integer};
ghost use Rattle.netlist.specs.Message as text;
ghost use Rattle.message_text.specs.Number.{sign_text, number_text};

use dt_core::append::push;
use dt_core::fault::NoMemory;
use dt_core::limits::MAX_WIDTH;
use itoa::Buffer;

/// A whole number: whether it is below 0, and its size.
#[derive(Clone, Copy)]
pub(crate) struct Number {
    negative: bool,
    size: u128,
}

/// Appends a value of this width and sign in decimal: in the columns of its width, or with the fewest digits.
pub(crate) fn append_decimal(
    out: &mut Vec<u8>,
    fewest: bool,
    signed: bool,
    width: u32,
    value: u128,
) -> Result<(), NoMemory>
    requires wide { (1 ≤ width) × (width ≤ MAX_WIDTH) }
    requires fits { value < 2 ^ width }
    ensures { OnOk result (out.new.items ≡ out.old.items ++ text.decimal_text fewest signed width value) }
{
    let number = number_of(signed, width, value);
    append_number(out, columns(fewest, signed, width), number)
}

// The number that a value stands for.
fn number_of(signed: bool, width: u32, value: u128) -> Number
    requires wide { (1 ≤ width) × (width ≤ MAX_WIDTH) }
    requires fits { value < 2 ^ width }
    ensures { text.signed_text (integer signed width value) ≡ number_text result }
{
    let half = half_of(width);
    if signed && value >= half {
        Number {
            negative: true,
            size: half - (value - half),
        }
    } else {
        Number {
            negative: false,
            size: value,
        }
    }
}

// How many values of a width have the highest bit 0.
fn half_of(width: u32) -> u128
    requires { (1 ≤ width) × (width ≤ MAX_WIDTH) }
    ensures { result ≡ 2 ^ (width - 1) }
{
    1 << (width - 1)
}

// The greatest number of a width.
fn most_of(width: u32) -> u128
    requires { (1 ≤ width) × (width ≤ MAX_WIDTH) }
    ensures { result ≡ 2 ^ width - 1 }
{
    u128::MAX >> (MAX_WIDTH - width)
}

// The columns in which a value of this width stands; none where the fewest digits are wanted.
fn columns(fewest: bool, signed: bool, width: u32) -> usize
    requires { (1 ≤ width) × (width ≤ MAX_WIDTH) }
    ensures { result ≡ (if fewest then 0 else text.columns signed width) }
{
    if fewest {
        0
    } else if signed {
        digit_count(half_of(width)) + 1
    } else {
        digit_count(most_of(width))
    }
}

// How many decimal digits a number has.
fn digit_count(number: u128) -> usize
    ensures count { result ≡ length (decimal number) }
    ensures few { result ≤ 40 }
{
    Buffer::new().format(number).as_bytes().len()
}

// Appends a number at the right of so many columns.
fn append_number(out: &mut Vec<u8>, columns: usize, number: Number) -> Result<(), NoMemory>
    ensures { OnOk result (out.new.items ≡ out.old.items ++ text.padded columns (number_text number)) }
{
    let sign = sign_of(number.negative);
    let mut buffer = Buffer::new();
    let digits = buffer.format(number.size).as_bytes();
    append_spaces(out, columns.saturating_sub(sign.len() + digits.len()))?;
    push(out, sign)?;
    push(out, digits)
}

// The sign that stands before a number's digits.
fn sign_of(negative: bool) -> &'static [u8]
    ensures { result.now ≡ sign_text negative }
{
    if negative { b"-" } else { b"" }
}

// Appends so many spaces.
fn append_spaces(out: &mut Vec<u8>, count: usize) -> Result<(), NoMemory>
    ensures { OnOk result (out.new.items ≡ out.old.items ++ replicate count 32) }
{
    for _ in 0..count {
        push(out, b" ")?;
    }
    Ok(())
}
