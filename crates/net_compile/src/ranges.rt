//! Which of some ranges in order has a bit.

ghost use Rattle.std.specs.Prelude.{◌↔◌, ◌+◌, ◌^◌, ◌<◌, IsTrue};
ghost use Rattle.netlist.specs.Fits.{IsBefore, AreInOrder};
ghost use Rattle.net_compile.specs.Pieces as pieces;

use netlist::design::Range;

/// The number of the range that has the bit; or the place up to which no range has a bit, from the one asked for on.
#[derive(Clone, Copy, Debug, PartialEq, Eq)]
pub(crate) enum Near {
    Holder(usize),
    Free(u32),
}

// Whether a range ends before a bit of a signal.
fn is_before(range: &Range, signal: u32, place: u32) -> bool
    ensures { IsTrue result ↔ IsBefore range.now (pieces.one_bit signal place) }
{
    let end = u64::from(range.low) + u64::from(range.width);
    range.signal < signal || (range.signal == signal && end <= u64::from(place))
}

/// How many of the first ranges end before a bit of a signal.
pub(crate) fn first_not_before(ranges: &[Range], signal: u32, place: u32) -> usize
    requires { AreInOrder (λ r. r) ranges.now }
    ensures { pieces.IsFirstNotBefore ranges.now signal place result }
{
    let mut low = 0;
    let mut high = ranges.len();
    while low < high {
        let middle = low + (high - low) / 2;
        if is_before(&ranges[middle], signal, place) {
            low = middle + 1;
        } else {
            high = middle;
        }
    }
    low
}

/// The range that has this bit of a signal, or how far there is none.
pub(crate) fn nearest(ranges: &[Range], signal: u32, place: u32) -> Near
    requires order { AreInOrder (λ r. r) ranges.now }
    requires place { place + 1 < 2 ^ 32 }
    ensures { pieces.IsNear ranges.now signal place result }
{
    let number = first_not_before(ranges, signal, place);
    match ranges.get(number) {
        Some(range) => {
            if range.signal != signal {
                Near::Free(u32::MAX)
            } else if range.low <= place {
                Near::Holder(number)
            } else {
                Near::Free(range.low)
            }
        }
        None => Near::Free(u32::MAX),
    }
}
