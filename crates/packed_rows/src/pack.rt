//! Packing a row into words.

ghost use Rattle.std.specs.Prelude.{◌≡◌, ◌≤◌, ◌<◌, ◌+◌, ◌*◌, ◌%◌, ◌^◌, length, IsTrue};
ghost use Rattle.std.specs.List.{All, sum};
ghost use Rattle.packed_rows.specs.Packed.{Fits, number, packed, word_count};
ghost use Rattle.packed_rows.specs.Words.{IsHeld, place, written};

use crate::held::{Held, high_part, low_part};
use dt_core::limits::MAX_WIDTH;

/// Packs a row of values of these widths into words, the first value at the lowest bits of the first word. Fewer bits
/// than a word has are packed without a look at where a word ends.
pub(crate) fn pack(widths: &[u32], is_short: bool, row: &[u128], words: &mut [u64])
    requires wide { All (λ w. w ≤ MAX_WIDTH) widths.now }
    requires short { IsTrue is_short → sum widths.now < 64 }
    requires fit { Fits widths.now row.now }
    requires long { length row.now ≡ length widths.now }
    requires size { length words.old ≡ word_count (sum widths.now) }
    ensures { number words.new ≡ packed widths.now row.now }
{
    if is_short {
        return put_last(words, held_of(widths, row));
    }
    let mut held = Held {
        bits: 0,
        count: 0,
        next: 0,
    };
    for (k, width) in widths.iter().enumerate() {
        held = put(words, held, row[k], *width);
    }
    put_last(words, held);
}

// The values of a row of fewer bits than a word has, held together.
fn held_of(widths: &[u32], row: &[u128]) -> Held
    requires few { sum widths.now < 64 }
    requires fit { Fits widths.now row.now }
    requires long { length row.now ≡ length widths.now }
    ensures held { IsHeld result }
    ensures place { place result ≡ sum widths.now }
    ensures bits { result.bits ≡ packed widths.now row.now }
{
    let mut held = Held {
        bits: 0,
        count: 0,
        next: 0,
    };
    for (k, width) in widths.iter().enumerate() {
        held = hold(held, row[k] as u64, *width);
    }
    held
}

// Holds the bits of a value too, above those that are held.
fn hold(held: Held, value: u64, width: u32) -> Held
    requires fits { value < 2 ^ width }
    requires held { IsHeld held }
    requires room { held.count + width < 64 }
    ensures held { IsHeld result }
    ensures bits { result.bits ≡ held.bits + value * 2 ^ held.count }
    ensures count { result.count ≡ held.count + width }
    ensures next { result.next ≡ held.next }
{
    Held {
        bits: low_part(held, value),
        count: held.count + width,
        next: held.next,
    }
}

// Puts the bits of a value after those that were put.
fn put(words: &mut [u64], held: Held, value: u128, width: u32) -> Held
    requires wide { width ≤ MAX_WIDTH }
    requires fits { value < 2 ^ width }
    requires held { IsHeld held }
    requires room { place held + width ≤ 64 * length words.old }
    ensures held { IsHeld result }
    ensures place { place result ≡ place held + width }
    ensures written { written words.new result ≡ written words.old held + 2 ^ place held * value }
{
    if width <= 64 {
        return put_few(words, held, value as u64, width);
    }
    let held = put_few(words, held, low_word(value), 64);
    put_few(words, held, (value >> 64) as u64, width - 64)
}

// Puts the bits of a value of a word at most.
fn put_few(words: &mut [u64], held: Held, value: u64, width: u32) -> Held
    requires wide { width ≤ 64 }
    requires fits { value < 2 ^ width }
    requires held { IsHeld held }
    requires room { place held + width ≤ 64 * length words.old }
    ensures held { IsHeld result }
    ensures place { place result ≡ place held + width }
    ensures written { written words.new result ≡ written words.old held + 2 ^ place held * value }
{
    let count = held.count + width;
    if count < 64 {
        return hold(held, value, width);
    }
    words[held.next] = low_part(held, value);
    Held {
        bits: high_part(held.count, value),
        count: count - 64,
        next: held.next + 1,
    }
}

// Puts the bits that are held into the last word, if there are some.
fn put_last(words: &mut [u64], held: Held)
    requires held { IsHeld held }
    requires size { length words.old ≡ word_count (place held) }
    ensures { number words.new ≡ written words.old held }
{
    if held.count > 0 {
        words[held.next] = held.bits;
    }
}

// The lowest 64 bits.
fn low_word(value: u128) -> u64
    ensures { result ≡ value % 2 ^ 64 }
{
    (value & u128::from(u64::MAX)) as u64
}
