//! Ranges among the constants in sight.

ghost use Rattle.std.specs.Prelude.{◌≡◌, IfOk};
ghost use Rattle.std.specs.Option.{option_map};
ghost use Rattle.vl_tree.specs.SyntaxView as view;
ghost use Rattle.vl_design.specs.Spans as design;
ghost use Rattle.vl_span.specs.Plain.{plain_bound, plain_span};
ghost use Rattle.vl_constants.specs.Needed.{constants_of, range_tree, HasSpan, HasBound};

use crate::value::{Evaluated, evaluate};
use std::alloc::{AllocError, Global};
use vl_found::{Found, lesser};
use vl_frames::frames::Frames;
use vl_span::index::{Bound, Index, index_of};
use vl_span::span::Span;
use vl_tree::expression::{Expr, Range};
use vl_width::known::Known;

/// A range that was read, and the least fault that keeps a bound from being a constant.
#[derive(Clone, Copy, Debug, PartialEq, Eq)]
pub struct Ranged {
    pub span: Span,
    pub fault: Option<Found>,
}

// A bound that was read, and the fault that keeps it from being a constant.
#[derive(Clone, Copy, Debug, PartialEq, Eq)]
struct Bounded {
    bound: Bound,
    fault: Option<Found>,
}

/// A declared range among the constants in sight; that of one bit where none is declared.
pub fn span_of(alloc: Global, frames: &Frames, range: Option<&Range>) -> Result<Ranged, AllocError>
    ensures { let r = range_tree range.entry in
        IfOk result (λ v. HasSpan (constants_of frames.now) r v.span v.fault) }
{
    match range {
        None => Ok(Ranged {
            span: Span::OneBit,
            fault: None,
        }),
        Some(range) => declared_span(alloc, frames, range),
    }
}

/// A range among the constants in sight.
pub fn declared_span(alloc: Global, frames: &Frames, range: &Range) -> Result<Ranged, AllocError>
    ensures { let r = Rattle.std.specs.Prelude.Some (view.range range.now) in
        IfOk result (λ v. HasSpan (constants_of frames.now) r v.span v.fault) }
{
    let left = bound(alloc, frames, &range.left)?;
    let right = bound(alloc, frames, &range.right)?;
    Ok(Ranged {
        span: Span::Bounds(left.bound, right.bound),
        fault: lesser(left.fault, right.fault),
    })
}

fn bound(alloc: Global, frames: &Frames, e: &Expr) -> Result<Bounded, AllocError>
    ensures { IfOk result (λ v. HasBound (constants_of frames.now) (view.expr e.now) v.bound v.fault) }
{
    let Evaluated {
        place,
        value,
        fault,
    } = evaluate(alloc, frames, e)?;
    let number = number_of(value.as_ref());
    Ok(Bounded {
        bound: Bound { place, number },
        fault,
    })
}

// The number of a bound of this value.
fn number_of(value: Option<&Known>) -> Index
    ensures { Rattle.vl_span.specs.Plain.plain_index result ≡ Rattle.vl_constants.specs.Needed.index_in (Rattle.vl_constants.specs.Needed.meant_in value.entry) }
{
    match value {
        Some(known) => index_of(known),
        None => Index::Missing,
    }
}
