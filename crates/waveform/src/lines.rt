//! The lines after the header, each appended to a text.

ghost use Rattle.std.specs.Prelude.{◌≡◌, ◌≤◌, ◌++◌, ◌∷◌, [], OnOk, codes, decimal, ◌==◌, if◌then◌else◌};
ghost use Rattle.waveform.specs.Vcd.{code, bits, value_text, line_text, time};

use dt_core::append::{push, push_number};
use dt_core::fault::NoMemory;
use dt_core::limits::MAX_WIDTH;

// Appends a byte.
fn push_byte(text: &mut Vec<u8>, byte: u8) -> Result<(), NoMemory>
    ensures { OnOk result (text.new.items ≡ text.old.items ++ byte ∷ []) }
{
    match text.push(byte) {
        Ok(()) => Ok(()),
        Err(_) => Err(NoMemory),
    }
}

// Appends the code of a variable's number. It calls itself once for each character.
pub fn push_code(text: &mut Vec<u8>, number: usize) -> Result<(), NoMemory>
    ensures { OnOk result (text.new.items ≡ text.old.items ++ code number) }
{
    if number < 94 {
        return push_byte(text, 33 + number as u8);
    }
    push_code(text, number / 94 - 1)?;
    push_byte(text, 33 + (number % 94) as u8)
}

// Appends the low bits of a number, from the left.
fn push_bits(text: &mut Vec<u8>, width: u32, value: u128) -> Result<(), NoMemory>
    requires { width ≤ MAX_WIDTH }
    ensures { OnOk result (text.new.items ≡ text.old.items ++ bits width value) }
{
    let mut left = width;
    while left > 0 {
        left -= 1;
        push_byte(text, 48 + ((value >> left) % 2) as u8)?;
    }
    Ok(())
}

// Appends the line of a value of width 1.
fn push_scalar(text: &mut Vec<u8>, number: usize, value: u128) -> Result<(), NoMemory>
    ensures { OnOk result (text.new.items ≡ text.old.items ++ (bits 1 value ++ (code number ++ codes "\n"))) }
{
    push_bits(text, 1, value)?;
    push_code(text, number)?;
    push(text, b"\n")
}

// Appends the line of a wider value.
fn push_vector(text: &mut Vec<u8>, width: u32, number: usize, value: u128) -> Result<(), NoMemory>
    requires { width ≤ MAX_WIDTH }
    ensures { OnOk result (text.new.items
        ≡ text.old.items ++ (codes "b" ++ (bits width value ++ (codes " " ++ (code number ++ codes "\n"))))) }
{
    push(text, b"b")?;
    push_bits(text, width, value)?;
    push(text, b" ")?;
    push_code(text, number)?;
    push(text, b"\n")
}

// Appends the line of a value.
pub fn push_value(
    text: &mut Vec<u8>,
    width: u32,
    number: usize,
    value: u128,
) -> Result<(), NoMemory>
    requires { width ≤ MAX_WIDTH }
    ensures { OnOk result (text.new.items ≡ text.old.items ++ value_text width number value) }
{
    if width == 1 {
        push_scalar(text, number, value)
    } else {
        push_vector(text, width, number, value)
    }
}

// Appends the line of a value, where it differs from the last one written.
pub fn push_change(
    text: &mut Vec<u8>,
    width: u32,
    number: usize,
    last: u128,
    value: u128,
) -> Result<(), NoMemory>
    requires { width ≤ MAX_WIDTH }
    ensures { OnOk result (text.new.items
        ≡ text.old.items ++ (if last == value then [] else value_text width number value)) }
{
    if last == value {
        Ok(())
    } else {
        push_value(text, width, number, value)
    }
}

// Appends the line of a time.
pub fn push_time(text: &mut Vec<u8>, at: u128) -> Result<(), NoMemory>
    ensures { OnOk result (text.new.items ≡ text.old.items ++ line_text (time at)) }
{
    push(text, b"#")?;
    push_number(text, at)?;
    push(text, b"\n")
}
