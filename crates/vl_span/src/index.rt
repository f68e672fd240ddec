//! Bounds of ranges.

ghost use Rattle.std.specs.Prelude.{◌≡◌, ◌≤◌, ◌*◌, ◌^◌, ◌↔◌, IsTrue};
ghost use Rattle.std.specs.Option.{option_map};
ghost use Rattle.vl_value.specs.Meaning.{whole};
ghost use Rattle.vl_tree.specs.declared.fault.FaultKind.TheVariants.{BadRange};
ghost use Rattle.vl_value.specs.Order.{at, least};
ghost use Rattle.vl_design.specs.Spans as design;
ghost use Rattle.vl_width.specs.Terms.{meant};
ghost use Rattle.vl_found.specs.View.{found};
ghost use Rattle.vl_span.specs.Plain.{plain_bound, plain_index};

use dt_core::bits::Bits;
use dt_core::limits::MAX_WORDS;
use dt_core::place::Place;
use vl_found::Found;
use vl_tree::fault::FaultKind;
use vl_width::known::Known;

/// The number of a bound.
#[derive(Clone, Copy, Debug, PartialEq, Eq)]
pub enum Index {
    /// It is no constant without a fault.
    Missing,
    /// No range may have it.
    Outside,
    Number(u32),
}

/// A bound: its first token, and its number.
#[derive(Clone, Copy, Debug, PartialEq, Eq)]
pub struct Bound {
    pub place: Place,
    pub number: Index,
}

/// The number of a constant as that of a bound.
pub fn index_of(known: &Known) -> Index
    ensures { plain_index result ≡ design.index_of (whole (meant known.now)) }
{
    let bits = known.own();
    if known.size.signed && is_high(bits) {
        return Index::Outside;
    }
    if bits.value() >= u128::from(MAX_WORDS) {
        return Index::Outside;
    }
    Index::Number(bits.value() as u32)
}

// Whether a vector's leftmost bit is 1.
fn is_high(bits: Bits) -> bool
    ensures { IsTrue result ↔ (2 ^ bits.width ≤ 2 * bits.value) }
{
    bits.value() >= 1 << (bits.width() - 1)
}

impl Bound {
    /// BadRange at the bound, where its number isn't from 0 to the most; of a missing one nothing is told.
    pub fn fault(self, most: u32) -> Option<Found>
        ensures { option_map found result ≡ least (design.bound_faults most (plain_bound self)) }
    {
        match self.number {
            Index::Missing => None,
            Index::Outside => Some(self.bad_range()),
            Index::Number(n) => {
                if n <= most {
                    None
                } else {
                    Some(self.bad_range())
                }
            }
        }
    }

    fn bad_range(self) -> Found
        ensures { found result ≡ at (plain_bound self).place BadRange }
    {
        Found {
            place: self.place,
            kind: FaultKind::BadRange,
        }
    }
}
