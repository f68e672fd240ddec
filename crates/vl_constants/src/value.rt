//! Expressions that have to be constant.

ghost use Rattle.std.specs.Prelude.{◌≡◌, ◌≤◌, ◌∷◌, [], if◌then◌else◌, IfOk};
ghost use Rattle.std.specs.Option.{option_map};
ghost use Rattle.dt_core.specs.declared.limits.TheConstants.{MAX_WIDTH};
ghost use Rattle.vl_tree.specs.SyntaxView as view;
ghost use Rattle.vl_tree.specs.declared.fault.FaultKind.TheVariants.{NotConstant};
ghost use Rattle.vl_value.specs.Meaning as meaning;
ghost use Rattle.vl_value.specs.Order.{at, least};
ghost use Rattle.vl_width.specs.Terms.{meant};
ghost use Rattle.vl_found.specs.View.{found};
ghost use Rattle.vl_design.specs.Constants as design;
ghost use Rattle.vl_constants.specs.Needed.{constants_of, faulty_in, Evaluates};

use crate::mentions::mentions;
use bit_ops::cut_to;
use dt_core::bits::Bits;
use dt_core::place::Place;
use std::alloc::{AllocError, Global};
use vl_found::Found;
use vl_frames::frames::Frames;
use vl_tree::expression::Expr;
use vl_tree::fault::FaultKind;
use vl_width::known::Known;
use vl_width::place::start;
use vl_width::size::Size;
use vl_width::walk::fold;

/// What an expression is: its first token; what it means where it is a constant without a fault; else its fault,
/// NotConstant, but for one that rests on a faulty constant.
#[derive(Drop)]
pub struct Evaluated {
    pub place: Place,
    pub value: Option<Known>,
    pub fault: Option<Found>,
}

/// Evaluates an expression among the constants in sight.
pub fn evaluate(alloc: Global, frames: &Frames, e: &Expr) -> Result<Evaluated, AllocError>
    ensures { IfOk result (λ v. Evaluates (constants_of frames.now) (view.expr e.now) v.place v.value v.fault) }
{
    let place = start(e);
    match fold(alloc, frames, e)? {
        Some(known) => Ok(Evaluated {
            place,
            value: Some(known),
            fault: None,
        }),
        None => Ok(Evaluated {
            place,
            value: None,
            fault: not_constant(frames, e, place),
        }),
    }
}

// NotConstant at a place, where an expression rests on no faulty constant.
fn not_constant(frames: &Frames, e: &Expr, place: Place) -> Option<Found>
    ensures { let rests = design.mentions (faulty_in frames.now) (view.expr e.now) in
        option_map found result ≡ least (if rests then [] else at (view.place place) NotConstant ∷ []) }
{
    if mentions(frames, e) {
        return None;
    }
    Some(Found {
        place,
        kind: FaultKind::NotConstant,
    })
}

/// The value where a target of a width takes it (IEEE 1364-2005, 5.4.1, 5.5.3).
pub fn assigned(known: &Known, width: u32) -> Bits
    requires { (1 ≤ width) × (width ≤ MAX_WIDTH) }
    ensures width { result.width ≡ width }
    ensures value { result.value ≡ meaning.assigned width (meant known.now) }
{
    let size = Size {
        width: known.size.width.max(width),
        signed: known.size.signed,
    };
    cut_to(known.term.value(size), width)
}

/// Whether a constant holds as a condition.
pub fn holds(known: &Known) -> bool
    ensures { result ≡ meaning.true_of (meant known.now) }
{
    known.own().value() != 0
}
