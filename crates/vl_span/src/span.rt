//! Ranges of bits and of words.

ghost use Rattle.std.specs.Prelude.{◌≡◌, ◌≤◌, ◌+◌, false, IfSome};
ghost use Rattle.std.specs.Option.{option_map};
ghost use Rattle.dt_core.specs.declared.limits.TheConstants.{MAX_BOUND};
ghost use Rattle.vl_tree.specs.SyntaxView as view;
ghost use Rattle.vl_value.specs.Order.{least};
ghost use Rattle.vl_value.specs.Things.{distance};
ghost use Rattle.vl_design.specs.Spans as design;
ghost use Rattle.vl_width.specs.Objects.{plain_shape};
ghost use Rattle.vl_found.specs.View.{found};
ghost use Rattle.vl_span.specs.Plain.{plain_span, plain_index, bounds_in, fitting};

use crate::index::{Bound, Index};
use dt_core::limits::{MAX_BOUND, MAX_WIDTH, MAX_WORDS};
use dt_core::place::Place;
use vl_found::{Found, lesser};
use vl_tree::fault::FaultKind;
use vl_width::shape::Shape;

/// A range of bits, or of a memory's words.
#[derive(Clone, Copy, Debug, PartialEq, Eq)]
pub enum Span {
    /// None is declared: `[0:0]`.
    OneBit,
    /// That of an `integer`: `[31:0]`.
    Integer,
    /// `[left:right]`
    Bounds(Bound, Bound),
}

impl Span {
    // The least fault of bounds that may be from 0 to the most.
    fn bounds_fault(self, most: u32) -> Option<Found>
        ensures { option_map found result ≡ least (design.bounds_faults most (plain_span self)) }
    {
        match self {
            Span::Bounds(left, right) => lesser(left.fault(most), right.fault(most)),
            Span::OneBit => None,
            Span::Integer => None,
        }
    }

    /// Its bounds as a range of bits; none where a bound is none.
    pub fn bounds(self) -> Option<(u32, u32)>
        ensures bounds { result ≡ bounds_in (plain_span self) }
        ensures within { IfSome result (λ q. (q.0 ≤ MAX_BOUND) × (q.1 ≤ MAX_BOUND)) }
    {
        match self {
            Span::OneBit => Some((0, 0)),
            Span::Integer => Some((31, 0)),
            Span::Bounds(left, right) => bounds_of(left.number, right.number),
        }
    }

    // TooWide at a name, where a vector has more bits than it may have.
    fn width_fault(self, place: Place) -> Option<Found>
        ensures { let sh = design.shape_of false (plain_span self) in
            option_map found result ≡ least (design.width_faults (view.place place) sh) }
    {
        let (left, right) = self.bounds()?;
        if width(left, right) <= MAX_WIDTH {
            return None;
        }
        Some(Found {
            place,
            kind: FaultKind::TooWide,
        })
    }

    /// The least fault of the range of a vector, whose name stands at a place.
    pub fn vector_fault(self, place: Place) -> Option<Found>
        ensures { option_map found result ≡ least (design.vector_faults (view.place place) (plain_span self)) }
    {
        lesser(self.bounds_fault(MAX_BOUND), self.width_fault(place))
    }

    /// The least fault of the range of a memory's words.
    pub fn words_fault(self) -> Option<Found>
        ensures { option_map found result ≡ least (design.words_faults (plain_span self)) }
    {
        self.bounds_fault(MAX_WORDS - 1)
    }

    /// The range with a sign, where it has no fault.
    pub fn shape(self, signed: bool) -> Option<Shape>
        ensures { option_map plain_shape result ≡ fitting (design.shape_of signed (plain_span self)) }
    {
        let (left, right) = self.bounds()?;
        if width(left, right) > MAX_WIDTH {
            return None;
        }
        Some(Shape {
            left,
            right,
            signed,
        })
    }

    /// The indices of a memory's first and last word; 0 where one has a fault.
    pub fn words(self) -> (u32, u32)
        ensures first { result.0 ≡ design.first_word (plain_span self) }
        ensures last { result.1 ≡ design.last_word (plain_span self) }
    {
        match self {
            Span::Bounds(left, right) => (number_of(left.number), number_of(right.number)),
            Span::OneBit => (0, 0),
            Span::Integer => (0, 0),
        }
    }
}

// Both bounds, where they are numbers that bounds of bits may be.
fn bounds_of(left: Index, right: Index) -> Option<(u32, u32)>
    ensures bounds { result ≡ design.bounds_of (plain_index left) (plain_index right) }
    ensures within { IfSome result (λ q. (q.0 ≤ MAX_BOUND) × (q.1 ≤ MAX_BOUND)) }
{
    match (left, right) {
        (Index::Number(a), Index::Number(b)) => {
            if a <= MAX_BOUND && b <= MAX_BOUND {
                Some((a, b))
            } else {
                None
            }
        }
        _ => None,
    }
}

/// The bits of a range.
pub fn width(left: u32, right: u32) -> u32
    requires { (left ≤ MAX_BOUND) × (right ≤ MAX_BOUND) }
    ensures { result ≡ distance left right + 1 }
{
    left.abs_diff(right) + 1
}

fn number_of(index: Index) -> u32
    ensures { result ≡ design.number_of (plain_index index) }
{
    match index {
        Index::Number(n) => n,
        Index::Missing | Index::Outside => 0,
    }
}
