//! Bits between a row's values and its words.

ghost use Rattle.std.specs.Prelude.{◌≡◌, ◌<◌, ◌+◌, ◌-◌, ◌*◌, ◌/◌, ◌%◌, ◌^◌};
ghost use Rattle.packed_rows.specs.Words.{IsHeld};

/// Bits that aren't in a word yet, or are out of one: a number of `count` bits, fewer than 64, and the number of the
/// word that comes next.
#[derive(Clone, Copy)]
pub(crate) struct Held {
    pub bits: u64,
    pub count: u32,
    pub next: usize,
}

/// The bits that are held, and above them as many bits of a word as 64 bits have room for.
pub(crate) fn low_part(held: Held, word: u64) -> u64
    requires { IsHeld held }
    ensures { result ≡ (held.bits + word * 2 ^ held.count) % 2 ^ 64 }
{
    held.bits + (word << held.count)
}

/// So many of a word's highest bits; none for 0, which one shift can't give.
pub(crate) fn high_part(count: u32, word: u64) -> u64
    requires { count < 64 }
    ensures { result ≡ word / 2 ^ (64 - count) }
{
    word >> 1 >> (63 - count)
}
