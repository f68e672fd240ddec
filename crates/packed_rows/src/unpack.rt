//! Unpacking a row from its words.

ghost use Rattle.std.specs.Prelude.{◌≡◌, ◌≤◌, ◌<◌, ◌+◌, ◌*◌, ◌/◌, ◌%◌, ◌^◌, length};
ghost use Rattle.std.specs.List.{All, sum};
ghost use Rattle.packed_rows.specs.Packed.{number, unpacked};
ghost use Rattle.packed_rows.specs.Words.{IsHeld, left, room};

use crate::held::{Held, high_part, low_part};
use dt_core::limits::MAX_WIDTH;

/// Unpacks the values of these widths from words, the first from the lowest bits of the first word.
pub(crate) fn unpack(widths: &[u32], words: &[u64], row: &mut [u128])
    requires wide { All (λ w. w ≤ MAX_WIDTH) widths.now }
    requires enough { sum widths.now ≤ 64 * length words.now }
    requires size { length row.old ≡ length widths.now }
    ensures { row.new ≡ unpacked widths.now (number words.now) }
{
    let mut held = Held {
        bits: 0,
        count: 0,
        next: 0,
    };
    for (k, width) in widths.iter().enumerate() {
        let taken = take(words, held, *width);
        row[k] = taken.value;
        held = taken.held;
    }
}

// A value that was taken, and what is held after it.
#[derive(Clone, Copy)]
struct Taken {
    value: u128,
    held: Held,
}

// Takes the bits of a value.
fn take(words: &[u64], held: Held, width: u32) -> Taken
    requires wide { width ≤ MAX_WIDTH }
    requires held { IsHeld held }
    requires room { width ≤ room words.now held }
    ensures held { IsHeld result.held }
    ensures room { room words.now result.held + width ≡ room words.now held }
    ensures value { result.value ≡ left words.now held % 2 ^ width }
    ensures left { left words.now result.held ≡ left words.now held / 2 ^ width }
{
    if width <= 64 {
        return take_few(words, held, width);
    }
    let low = take_few(words, held, 64);
    let high = take_few(words, low.held, width - 64);
    Taken {
        value: low.value + (high.value << 64),
        held: high.held,
    }
}

// Takes the bits of a value of a word at most.
fn take_few(words: &[u64], held: Held, width: u32) -> Taken
    requires wide { width ≤ 64 }
    requires held { IsHeld held }
    requires room { width ≤ room words.now held }
    ensures held { IsHeld result.held }
    ensures room { room words.now result.held + width ≡ room words.now held }
    ensures value { result.value ≡ left words.now held % 2 ^ width }
    ensures left { left words.now result.held ≡ left words.now held / 2 ^ width }
{
    if width <= held.count {
        return split(held, width);
    }
    let word = words[held.next];
    let count = held.count + 64 - width;
    Taken {
        value: u128::from(lowest(low_part(held, word), width)),
        held: Held {
            bits: high_part(count, word),
            count,
            next: held.next + 1,
        },
    }
}

// The lowest bits of a word, one at least.
fn lowest(word: u64, count: u32) -> u64
    requires { (1 ≤ count) × (count ≤ 64) }
    ensures { result ≡ word % 2 ^ count }
{
    word & (u64::MAX >> (64 - count))
}

// Splits the lowest bits from those that are held.
fn split(held: Held, width: u32) -> Taken
    requires held { IsHeld held }
    requires enough { width ≤ held.count }
    ensures value { result.value ≡ held.bits % 2 ^ width }
    ensures bits { result.held.bits ≡ held.bits / 2 ^ width }
    ensures count { result.held.count + width ≡ held.count }
    ensures next { result.held.next ≡ held.next }
{
    Taken {
        value: u128::from(held.bits & ((1 << width) - 1)),
        held: Held {
            bits: held.bits >> width,
            count: held.count - width,
            next: held.next,
        },
    }
}
