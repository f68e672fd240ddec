//! Numbers: plain decimals and based numbers, and what they say.

ghost use Rattle.std.specs.Prelude.{◌==◌, ◌≡◌, ◌+◌, ◌^◌, ◌≤◌, ◌<◌, ℕ, ◌∷◌, length, IfOk, IfSome};
ghost use Rattle.std.specs.List.{prefix_len};
ghost use Rattle.vl_lex.specs.Numbers as n;
ghost use Rattle.vl_lex.specs.Digits.{value_of};
ghost use Rattle.vl_lex.specs.Calls.Reading.{IsWidth, IsLiteral, IsFormat, Tells, format_of};

use crate::digits::{Base, digits_value, is_digit_of, is_x, is_z, low_bits, wild_bits};
use dt_core::limits::MAX_WIDTH;
use vl_pre::bytes::{after, begins_name, is_digit, next};
use vl_tree::fault::FaultKind;
use vl_tree::token::Literal;

/// What stands between the size and the digits of a based number, with how many bytes it has.
#[derive(Clone, Copy)]
pub struct Format {
    pub signed: bool,
    pub base: Base,
    pub used: usize,
}

/// A number and how many bytes its spelling has.
#[derive(Clone, Copy)]
pub struct Number {
    pub literal: Literal,
    pub used: usize,
}

fn is_in_decimal(byte: u8) -> bool
    ensures { result ≡ n.is_in_decimal byte }
{
    is_digit(byte) || byte == b'_'
}

// How many digits and `_` stand at the head.
fn count_decimal(bytes: &[u8]) -> usize
    ensures count { result ≡ prefix_len n.is_in_decimal bytes.now }
    ensures within { result ≤ length bytes.now }
{
    bytes
        .iter()
        .take_while(|byte| is_in_decimal(**byte))
        .count()
}

fn is_in_digits(base: Base, byte: u8) -> bool
    ensures { result ≡ n.is_in_digits base byte }
{
    is_digit_of(base, byte) || byte == b'_'
}

// How many digits of the base and `_` stand at the head.
fn count_digits(base: Base, bytes: &[u8]) -> usize
    ensures count { result ≡ prefix_len (n.is_in_digits base) bytes.now }
    ensures within { result ≤ length bytes.now }
{
    bytes
        .iter()
        .take_while(|byte| is_in_digits(base, **byte))
        .count()
}

// How many `_` stand at the head.
fn count_gaps(bytes: &[u8]) -> usize
    ensures count { result ≡ prefix_len (λ c. c == 95) bytes.now }
    ensures within { result ≤ length bytes.now }
{
    bytes.iter().take_while(|byte| **byte == b'_').count()
}

// How many bytes of digits stand after a base: the first isn't `_`, and of digits a decimal `x` or `z` is alone.
fn digits_length(base: Base, bytes: &[u8]) -> usize
    ensures count { result ≡ n.digits_length base bytes.now }
    ensures within { result ≤ length bytes.now }
{
    match next(bytes) {
        Some((first, after)) => digits_length_by(base, first, after),
        None => 0,
    }
}

// The same, by the first byte and those after it.
fn digits_length_by(base: Base, first: u8, after: &[u8]) -> usize
    ensures count { result ≡ n.digits_length base (first ∷ after.now) }
    ensures within { result ≤ length after.now + 1 }
{
    if is_digit_of(base, first) {
        count_digits(base, after) + 1
    } else if is_x(first) || is_z(first) {
        count_gaps(after) + 1
    } else {
        0
    }
}

// A letter, a digit or `_` comes.
fn goes_on(bytes: &[u8]) -> bool
    ensures { result ≡ n.goes_on bytes.now }
{
    match next(bytes) {
        Some((first, _)) => begins_name(first) || is_digit(first),
        None => false,
    }
}

// The base at the head, after so many bytes of the format.
fn format_base(signed: bool, before: usize, bytes: &[u8]) -> Option<Format>
    requires { before < 3 }
    ensures format { IsFormat (n.format_base signed (before + 1) bytes.now) result }
    ensures used { IfSome result (λ f. f.used ≤ before + length bytes.now) }
{
    let (first, _) = next(bytes)?;
    Some(Format {
        signed,
        base: Base::of_letter(first)?,
        used: before + 1,
    })
}

// `s` or not, and the base, after an apostrophe.
fn format_sign(bytes: &[u8]) -> Option<Format>
    ensures format { IsFormat (n.format_sign bytes.now) result }
    ensures used { IfSome result (λ f. f.used ≤ 1 + length bytes.now) }
{
    match next(bytes) {
        Some((b's' | b'S', after)) => format_base(true, 2, after),
        _ => format_base(false, 1, bytes),
    }
}

// An apostrophe, `s` or not, and the base.
fn format_at(bytes: &[u8]) -> Option<Format>
    ensures format { IsFormat (n.format_at bytes.now) result }
    ensures used { IfSome result (λ f. f.used ≤ length bytes.now) }
{
    match next(bytes) {
        Some((b'\'', after)) => format_sign(after),
        _ => None,
    }
}

// The number of these digits without a size, after which stand those bytes.
fn read_plain(digits: &[u8], rest: &[u8]) -> Result<Number, FaultKind>
    ensures tells { Tells (n.plain_number digits.now rest.now) result }
    ensures used { IfOk result (λ x. x.used ≡ length digits.now) }
{
    if goes_on(rest) {
        return Err(FaultKind::BadNumber);
    }
    let Some(value) = digits_value(10, digits) else {
        return Err(FaultKind::BadNumber);
    };
    if value >= 4_294_967_296 {
        return Err(FaultKind::BadNumber);
    }
    Ok(Number {
        literal: Literal {
            width: 32,
            sized: false,
            signed: true,
            value,
            wild: 0,
        },
        used: digits.len(),
    })
}

// The width that a size gives.
fn width_of(size: &[u8]) -> Result<u32, FaultKind>
    ensures { IsWidth (value_of 10 size.now) result }
{
    let Some(width) = digits_value(10, size) else {
        return Err(FaultKind::TooWide);
    };
    if width == 0 {
        return Err(FaultKind::BadNumber);
    }
    if width > u128::from(MAX_WIDTH) {
        return Err(FaultKind::TooWide);
    }
    Ok(width as u32)
}

// The literal of this width and these digits.
fn sized_literal(width: u32, signed: bool, base: Base, digits: &[u8]) -> Result<Literal, FaultKind>
    requires { (1 ≤ width) × (width ≤ MAX_WIDTH) }
    ensures { IsLiteral (n.sized_literal width signed base digits.now) result }
{
    let Some(value) = digits_value(base.radix(), digits) else {
        return Err(FaultKind::TooWide);
    };
    Ok(Literal {
        width,
        sized: true,
        signed,
        value: low_bits(width, value),
        wild: wild_bits(base, width, digits),
    })
}

// The literal of these digits without a size.
fn unsized_literal(signed: bool, base: Base, digits: &[u8]) -> Result<Literal, FaultKind>
    ensures { IsLiteral (n.unsized_literal signed base digits.now) result }
{
    let Some(value) = digits_value(base.radix(), digits) else {
        return Err(FaultKind::TooWide);
    };
    if value >= 4_294_967_296 {
        return Err(FaultKind::TooWide);
    }
    Ok(Literal {
        width: 32,
        sized: false,
        signed,
        value,
        wild: wild_bits(base, 32, digits),
    })
}

// The literal of this size, which may be empty, and these digits.
fn literal_of(size: &[u8], signed: bool, base: Base, digits: &[u8]) -> Result<Literal, FaultKind>
    ensures { IsLiteral (n.literal_of_size size.now signed base digits.now) result }
{
    if size.is_empty() {
        return unsized_literal(signed, base, digits);
    }
    let width = width_of(size)?;
    sized_literal(width, signed, base, digits)
}

// The number of this size and format, whose digits stand at the head of these bytes.
fn read_based(size: &[u8], format: Format, bytes: &[u8]) -> Result<Number, FaultKind>
    requires { length size.now + format.used + length bytes.now < 2 ^ 63 }
    ensures tells { Tells (n.based_number size.now (format_of format) bytes.now) result }
    ensures used { IfOk result (λ x. (0 < x.used) × (x.used ≤ length size.now + format.used + length bytes.now)) }
{
    let count = digits_length(format.base, bytes);
    let (digits, rest) = bytes.split_at(count);
    if count == 0 || goes_on(rest) {
        return Err(FaultKind::BadNumber);
    }
    let literal = literal_of(size, format.signed, format.base, digits)?;
    Ok(Number {
        literal,
        used: size.len() + format.used + count,
    })
}

/// The number at the head.
pub fn read_number(bytes: &[u8]) -> Result<Number, FaultKind>
    ensures tells { Tells (n.number_at bytes.now) result }
    ensures used { IfOk result (λ x. (0 < x.used) × (x.used ≤ length bytes.now)) }
{
    let (size, rest) = bytes.split_at(count_decimal(bytes));
    if let Some(format) = format_at(rest) {
        return read_based(size, format, after(rest, format.used));
    }
    if size.is_empty() {
        return Err(FaultKind::BadToken);
    }
    read_plain(size, rest)
}
