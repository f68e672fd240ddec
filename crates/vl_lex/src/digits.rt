//! Digits: the number and the wild bits that they stand for.

ghost use Rattle.std.specs.Prelude.{◌≡◌, ◌+◌, ◌-◌, ◌*◌, ◌%◌, ◌^◌, ◌≤◌, ◌<◌, ◌==◌, if◌then◌else◌, ℕ, ◌∷◌, length, map};
ghost use Rattle.vl_lex.specs.Digits as d;
ghost use Rattle.vl_lex.specs.Calls.Reading.{IsValue};

use dt_core::limits::MAX_WIDTH;
use vl_pre::bytes::{is_digit, next};

/// The base of a number.
#[derive(Clone, Copy, Debug, PartialEq, Eq)]
pub enum Base {
    Binary,
    Octal,
    Decimal,
    Hexadecimal,
}

impl Base {
    /// The base that a letter stands for.
    pub fn of_letter(letter: u8) -> Option<Base>
        ensures { result ≡ d.base_of letter }
    {
        match letter {
            b'b' | b'B' => Some(Base::Binary),
            b'o' | b'O' => Some(Base::Octal),
            b'd' | b'D' => Some(Base::Decimal),
            b'h' | b'H' => Some(Base::Hexadecimal),
            _ => None,
        }
    }

    /// How many digits it has.
    pub fn radix(self) -> u128
        ensures value { result ≡ d.radix self }
        ensures some { 0 < result }
    {
        match self {
            Base::Binary => 2,
            Base::Octal => 8,
            Base::Decimal => 10,
            Base::Hexadecimal => 16,
        }
    }

    /// How many bits one of its `z` digits stands for.
    fn digit_bits(self) -> u32
        ensures value { result ≡ d.digit_bits self }
        ensures few { result ≤ 4 }
    {
        match self {
            Base::Binary => 1,
            Base::Octal => 3,
            Base::Decimal => 1,
            Base::Hexadecimal => 4,
        }
    }
}

/// `x` in either case.
pub fn is_x(byte: u8) -> bool
    ensures { result ≡ d.is_x byte }
{
    byte == b'x' || byte == b'X'
}

/// `z` in either case, or `?`.
pub fn is_z(byte: u8) -> bool
    ensures { result ≡ d.is_z byte }
{
    byte == b'z' || byte == b'Z' || byte == b'?'
}

/// A digit of the base; an `x` or `z` too, unless the base is ten.
pub fn is_digit_of(base: Base, byte: u8) -> bool
    ensures { result ≡ d.is_digit_of base byte }
{
    match base {
        Base::Binary => byte >= b'0' && byte <= b'1' || is_x(byte) || is_z(byte),
        Base::Octal => byte >= b'0' && byte <= b'7' || is_x(byte) || is_z(byte),
        Base::Decimal => is_digit(byte),
        Base::Hexadecimal => {
            is_digit(byte)
                || byte >= b'A' && byte <= b'F'
                || byte >= b'a' && byte <= b'f'
                || is_x(byte)
                || is_z(byte)
        }
    }
}

fn digit_value(byte: u8) -> u8
    ensures value { result ≡ d.digit_value byte }
    ensures small { result < 16 }
{
    if is_digit(byte) {
        byte - b'0'
    } else if byte >= b'A' && byte <= b'F' {
        byte - b'A' + 10
    } else if byte >= b'a' && byte <= b'f' {
        byte - b'a' + 10
    } else {
        0
    }
}

// The value with one more digit, if it is below 2^128; `_` is no digit.
fn with_digit(radix: u128, value: u128, byte: u8) -> Option<u128>
    ensures { IsValue (if byte == 95 then value else value * radix + d.digit_value byte) result }
{
    if byte == b'_' {
        return Some(value);
    }
    let scaled = value.checked_mul(radix)?;
    scaled.checked_add(u128::from(digit_value(byte)))
}

/// The number that digits stand for, if it is below 2^128.
pub fn digits_value(radix: u128, digits: &[u8]) -> Option<u128>
    requires { 0 < radix }
    ensures { IsValue (d.value_of radix digits.now) result }
{
    let mut value = 0u128;
    for byte in digits {
        value = with_digit(radix, value, *byte)?;
    }
    Some(value)
}

/// The lowest bits of a value.
pub fn low_bits(width: u32, value: u128) -> u128
    requires { width ≤ MAX_WIDTH }
    ensures value { result ≡ value % 2 ^ width }
    ensures fits { result < 2 ^ width }
{
    if width == MAX_WIDTH {
        value
    } else {
        value % (1u128 << width)
    }
}

// Ones in so many bits.
fn all_bits(width: u32) -> u128
    requires { width ≤ MAX_WIDTH }
    ensures { result ≡ 2 ^ width - 1 }
{
    if width == MAX_WIDTH {
        u128::MAX
    } else {
        (1u128 << width) - 1
    }
}

// Ones in all bits of a `z` digit.
fn z_bits(bits: u32, byte: u8) -> u128
    requires { bits ≤ 4 }
    ensures { result ≡ d.z_bits bits byte }
{
    if is_z(byte) { all_bits(bits) } else { 0 }
}

// What stands before the wild bits of digits at a width: ones where the leftmost digit is a `z`.
fn wild_left(width: u32, digits: &[u8]) -> u128
    requires { width ≤ MAX_WIDTH }
    ensures { result ≡ d.wild_left width digits.now }
{
    match next(digits) {
        Some((first, _)) if is_z(first) => all_bits(width),
        _ => 0,
    }
}

// The wild bits with one more digit, modulo 2^128.
fn wild_step(bits: u32, wild: u128, byte: u8) -> u128
    requires { bits ≤ 4 }
    ensures { result ≡ (if byte == 95 then wild else wild * 2 ^ bits + d.z_bits bits byte) % 2 ^ 128 }
{
    if byte == b'_' {
        wild
    } else {
        wild.wrapping_mul(1u128 << bits)
            .wrapping_add(z_bits(bits, byte))
    }
}

// The wild bits of digits after those before them, modulo 2^128.
fn wild_after(bits: u32, before: u128, digits: &[u8]) -> u128
    requires { bits ≤ 4 }
    ensures { result ≡ d.positional (2 ^ bits) (before ∷ map (d.z_bits bits) (d.digits_in digits.now)) % 2 ^ 128 }
{
    let mut wild = before;
    for byte in digits {
        wild = wild_step(bits, wild, *byte);
    }
    wild
}

/// The wild bits of digits at a width.
pub fn wild_bits(base: Base, width: u32, digits: &[u8]) -> u128
    requires { width ≤ MAX_WIDTH }
    ensures value { result ≡ d.wild_of base width digits.now }
    ensures fits { result < 2 ^ width }
{
    let wild = wild_after(base.digit_bits(), wild_left(width, digits), digits);
    low_bits(width, wild)
}
