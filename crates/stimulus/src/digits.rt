//! Hexadecimal digits and the values of a row.

ghost use Rattle.std.specs.Prelude.{◌≡◌, ◌+◌, ◌*◌, ◌^◌, ◌<◌, ◌≤◌, ℕ, length, nat_le, nat_lt, IfSome, IsTrue, Ok};
ghost use Rattle.stimulus.specs.Calls.Digits.{EndsPiece, IsDigitRun, IsNumber, IsRun, IsShortRun, ReadsValue};
ghost use Rattle.stimulus.specs.Calls.Digits.{ReadsValues, digit_code, is_space, words_in};
ghost use Rattle.stimulus.specs.Stimulus.{values_of, words};
ghost use Rattle.std.specs.List.{All, count_by};

use crate::refusal::RefusalKind;
use dt_core::limits::MAX_WIDTH;

// The value of each byte that is a hexadecimal digit, and 255 for the others.
static DIGITS: [u8; 256] = [
    255, 255, 255, 255, 255, 255, 255, 255, 255, 255, 255, 255, 255, 255, 255, 255, 255, 255, 255,
    255, 255, 255, 255, 255, 255, 255, 255, 255, 255, 255, 255, 255, 255, 255, 255, 255, 255, 255,
    255, 255, 255, 255, 255, 255, 255, 255, 255, 255, 0, 1, 2, 3, 4, 5, 6, 7, 8, 9, 255, 255, 255,
    255, 255, 255, 255, 10, 11, 12, 13, 14, 15, 255, 255, 255, 255, 255, 255, 255, 255, 255, 255,
    255, 255, 255, 255, 255, 255, 255, 255, 255, 255, 255, 255, 255, 255, 255, 255, 10, 11, 12, 13,
    14, 15, 255, 255, 255, 255, 255, 255, 255, 255, 255, 255, 255, 255, 255, 255, 255, 255, 255,
    255, 255, 255, 255, 255, 255, 255, 255, 255, 255, 255, 255, 255, 255, 255, 255, 255, 255, 255,
    255, 255, 255, 255, 255, 255, 255, 255, 255, 255, 255, 255, 255, 255, 255, 255, 255, 255, 255,
    255, 255, 255, 255, 255, 255, 255, 255, 255, 255, 255, 255, 255, 255, 255, 255, 255, 255, 255,
    255, 255, 255, 255, 255, 255, 255, 255, 255, 255, 255, 255, 255, 255, 255, 255, 255, 255, 255,
    255, 255, 255, 255, 255, 255, 255, 255, 255, 255, 255, 255, 255, 255, 255, 255, 255, 255, 255,
    255, 255, 255, 255, 255, 255, 255, 255, 255, 255, 255, 255, 255, 255, 255, 255, 255, 255, 255,
    255, 255, 255, 255, 255, 255, 255, 255, 255, 255, 255, 255, 255, 255, 255, 255, 255, 255, 255,
    255, 255, 255,
];

// The least number that has no room for a further digit.
const FULL: u128 = 1 << 124;

/// The number of the digits so far, or that it has more than 128 bits.
#[derive(Clone, Copy)]
pub(crate) struct Number {
    value: u128,
    over: bool,
}

/// The digits at the head of bytes: how many, and their number.
#[derive(Clone, Copy)]
pub(crate) struct Run {
    count: usize,
    number: Number,
}

// The least number of 64 bits that has no room for a further digit.
const FEW: u64 = 1 << 60;

/// The same where the number has 64 bits at most.
#[derive(Clone, Copy)]
pub(crate) struct Few {
    count: usize,
    value: u64,
}

/// The value of a hexadecimal digit, or 255.
pub(crate) fn digit_of(byte: u8) -> u8
    ensures { result ≡ digit_code byte }
{
    let digits = DIGITS.as_slice();
    digits[byte as usize]
}

impl Number {
    // The number with one digit more.
    fn with_digit(self, digit: u8) -> Number
        requires { digit < 16 }
        ensures { (n : ℕ) → IsNumber self n → IsNumber result (16 * n + digit) }
    {
        if self.over || self.value >= FULL {
            return Number {
                value: FULL,
                over: true,
            };
        }
        Number {
            value: self.value * 16 + digit as u128,
            over: false,
        }
    }

    // Whether it is 2^width or more.
    fn is_too_large(self, width: u32) -> bool
        requires { width ≤ MAX_WIDTH }
        ensures { (n : ℕ) → IsNumber self n → result ≡ nat_le (2 ^ width) n }
    {
        self.over || (width < MAX_WIDTH && self.value >> width != 0)
    }
}

// Whether a number is 2^width or more.
fn has_more_bits(value: u64, width: u32) -> bool
    requires { width ≤ MAX_WIDTH }
    ensures { result ≡ nat_le (2 ^ width) value }
{
    width < 64 && value >> width != 0
}

impl Run {
    // Whether there is a digit.
    fn is_value(self) -> bool
        ensures { result ≡ nat_lt 0 self.count }
    {
        self.count > 0
    }
}

// The digits at the head of the bytes.
fn read_digits(bytes: &[u8]) -> Run
    ensures { IsRun bytes.now result }
{
    let mut number = Number {
        value: 0,
        over: false,
    };
    for (i, byte) in bytes.iter().enumerate() {
        let digit = digit_of(*byte);
        if digit > 15 {
            return Run { count: i, number };
        }
        number = number.with_digit(digit);
    }
    Run {
        count: bytes.len(),
        number,
    }
}

// What is left after a piece that begins with so many digits and no more: None where the piece ends the bytes.
fn after_digits(bytes: &[u8], count: usize) -> Result<Option<&[u8]>, RefusalKind>
    requires digits { IsDigitRun bytes.now count }
    ensures { EndsPiece bytes.now count result }
{
    match bytes.get(count) {
        None => Ok(None),
        Some(b' ') => Ok(Some(&bytes[count + 1..])),
        Some(_) => Err(RefusalKind::BadValue),
    }
}

// The value of this width at the head of the bytes, and what is left after it, if a space follows it.
fn read_value(bytes: &[u8], width: u32) -> Result<(u128, Option<&[u8]>), RefusalKind>
    requires { width ≤ MAX_WIDTH }
    ensures { ReadsValue width bytes.now result }
{
    let run = read_digits(bytes);
    if !run.is_value() {
        return Err(RefusalKind::BadValue);
    }
    match after_digits(bytes, run.count) {
        Err(kind) => Err(kind),
        Ok(rest) => {
            if run.number.is_too_large(width) {
                return Err(RefusalKind::TooLarge);
            }
            Ok((run.number.value, rest))
        }
    }
}

// The number of values of a row.
fn count_values(line: &[u8]) -> usize
    ensures { result ≡ length (values_of line.now) }
{
    if line.is_empty() {
        return 0;
    }
    count_spaces(line) + 1
}

// The number of spaces.
fn count_spaces(bytes: &[u8]) -> usize
    ensures count { result ≡ count_by is_space bytes.now }
    ensures few { result ≤ length bytes.now }
{
    let mut count = 0;
    for byte in bytes {
        if *byte == b' ' {
            count += 1;
        }
    }
    count
}

// The line, where it isn't empty.
fn some_line(line: &[u8]) -> Option<&[u8]>
    ensures { words_in result ≡ values_of line.now }
{
    if line.is_empty() { None } else { Some(line) }
}

// The values of a row, in order of their places: one for each width, or the fault.
fn read_each(line: &[u8], widths: &[u32], values: &mut [u128]) -> Result<(), RefusalKind>
    requires size { length values.old ≡ length widths.now }
    requires widths { All (λ w. w ≤ MAX_WIDTH) widths.now }
    ensures size { length values.new ≡ length values.old }
    ensures reads { ReadsValues widths.now line.now values.new result }
{
    if count_values(line) != widths.len() {
        return Err(RefusalKind::WrongCount);
    }
    let mut rest = some_line(line);
    for (place, width) in widths.iter().enumerate() {
        match rest {
            None => return Err(RefusalKind::WrongCount),
            Some(bytes) => match read_value(bytes, *width) {
                Ok((number, after)) => {
                    values[place] = number;
                    rest = after;
                }
                Err(kind) => return Err(kind),
            },
        }
    }
    Ok(())
}

/// Reads the values of a row, in order of their places: one for each width, or the fault.
pub(crate) fn read_values(
    line: &[u8],
    widths: &[u32],
    values: &mut [u128],
) -> Result<(), RefusalKind>
    requires size { length values.old ≡ length widths.now }
    requires widths { All (λ w. w ≤ MAX_WIDTH) widths.now }
    ensures size { length values.new ≡ length values.old }
    ensures reads { ReadsValues widths.now line.now values.new result }
{
    if read_short(line, widths, values) {
        return Ok(());
    }
    read_each(line, widths, values)
}

// Reads the values of a row that are all of few digits and have no fault; false where they aren't, or where one has.
fn read_short(line: &[u8], widths: &[u32], values: &mut [u128]) -> bool
    requires size { length values.old ≡ length widths.now }
    requires widths { All (λ w. w ≤ MAX_WIDTH) widths.now }
    ensures size { length values.new ≡ length values.old }
    ensures reads { IsTrue result → ReadsValues widths.now line.now values.new (Ok tt) }
{
    let mut rest = some_line(line);
    for (place, width) in widths.iter().enumerate() {
        match rest {
            None => return false,
            Some(bytes) => match read_few(bytes, *width) {
                Some((number, after)) => {
                    values[place] = u128::from(number);
                    rest = after;
                }
                None => return false,
            },
        }
    }
    rest.is_none()
}

// The value of this width at the head of the bytes, where it has few digits and no fault, and what is left after it.
fn read_few(bytes: &[u8], width: u32) -> Option<(u64, Option<&[u8]>)>
    requires { width ≤ MAX_WIDTH }
    ensures { IfSome result (λ r. ReadsValue width bytes.now (Ok (r.0, r.1))) }
{
    let few = few_digits(bytes);
    if few.count == 0 {
        return None;
    }
    if has_more_bits(few.value, width) {
        return None;
    }
    match after_digits(bytes, few.count) {
        Ok(rest) => Some((few.value, rest)),
        Err(_) => None,
    }
}

// The digits at the head of the bytes, and their number; none where it has more than 60 bits.
fn few_digits(bytes: &[u8]) -> Few
    ensures { 0 < result.count → IsShortRun bytes.now result }
{
    let mut value: u64 = 0;
    for (i, byte) in bytes.iter().enumerate() {
        let digit = digit_of(*byte);
        if digit > 15 {
            return Few { count: i, value };
        }
        if value >= FEW {
            return Few { count: 0, value: 0 };
        }
        value = value * 16 + u64::from(digit);
    }
    Few {
        count: bytes.len(),
        value,
    }
}
