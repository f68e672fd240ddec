//! Types of parameters, and what a parameter is worth.

ghost use Rattle.std.specs.Prelude.{◌≡◌, Some, IfOk, map};
ghost use Rattle.std.specs.Option.{option_map};
ghost use Rattle.vl_tree.specs.SyntaxView as view;
ghost use Rattle.vl_value.specs.Order as order;
ghost use Rattle.vl_value.specs.Order.{least};
ghost use Rattle.vl_width.specs.Terms.{meant};
ghost use Rattle.vl_span.specs.Plain.{plain_span};
ghost use Rattle.vl_design.specs.Spans.{shape_of};
ghost use Rattle.vl_found.specs.View.{found};
ghost use Rattle.vl_design.specs.Parameters as design;
ghost use Rattle.vl_frames.specs.Marks.{plain_worth};
ghost use Rattle.vl_constants.specs.Needed.{constants_of, range_tree, meant_in};
ghost use Rattle.vl_parameters.specs.Plain.{plain_type, plain_given, given_in, found_given, spoilt_at, HasOwnWorth, HasType, HasWorth};

use dt_core::place::Place;
use dt_core::text::Text;
use std::alloc::{AllocError, Global};
use vl_constants::range::declared_span;
use vl_constants::value::{assigned, evaluate};
use vl_found::{Found, lesser};
use vl_frames::frames::Frames;
use vl_frames::mark::Worth;
use vl_span::span::{Span, width};
use vl_tree::expression::{Expr, Name, Range};
use vl_tree::fault::FaultKind;
use vl_width::known::Known;
use vl_width::number::Constant;

/// The declared sign of a parameter, and its range if one is declared.
#[derive(Clone, Copy, Debug, PartialEq, Eq)]
pub struct ParameterType {
    pub signed: bool,
    pub range: Option<Span>,
}

/// A declared type that was read, and the least fault of its range.
#[derive(Clone, Copy, Debug, PartialEq, Eq)]
pub struct Typed {
    pub kind: ParameterType,
    pub fault: Option<Found>,
}

/// A value that an instance gives to a parameter: where it stands, and what it means unless it rests on a fault.
#[derive(Drop)]
pub struct Given<'a> {
    pub name: &'a Text,
    pub place: Place,
    pub value: Option<Known>,
}

/// What a parameter is worth, and the least of its faults.
#[derive(Clone, Copy, Debug, PartialEq, Eq)]
pub struct Weighed {
    pub worth: Worth,
    pub fault: Option<Found>,
}

/// A declared type among the constants in sight.
pub fn type_of(
    alloc: Global,
    frames: &Frames,
    signed: bool,
    range: Option<&Range>,
) -> Result<Typed, AllocError>
    ensures { let r = range_tree range.entry in
        IfOk result (λ v. HasType (constants_of frames.now) signed r v.kind v.fault) }
{
    match range {
        None => Ok(Typed {
            kind: ParameterType {
                signed,
                range: None,
            },
            fault: None,
        }),
        Some(range) => declared_type(alloc, frames, signed, range),
    }
}

// A declared type that has a range.
fn declared_type(
    alloc: Global,
    frames: &Frames,
    signed: bool,
    range: &Range,
) -> Result<Typed, AllocError>
    ensures { let r = Some (view.range range.now) in
        IfOk result (λ v. HasType (constants_of frames.now) signed r v.kind v.fault) }
{
    let ranged = declared_span(alloc, frames, range)?;
    Ok(Typed {
        kind: ParameterType {
            signed,
            range: Some(ranged.span),
        },
        fault: ranged.fault,
    })
}

/// A parameter's worth: of the value that is given, or else of its own expression.
pub fn parameter(
    alloc: Global,
    frames: &Frames,
    given: &[Given<'_>],
    kind: ParameterType,
    name: &Name,
    own: &Expr,
) -> Result<Weighed, AllocError>
    ensures { let gs = map plain_given given.now in let t = plain_type kind in
        IfOk result (λ v. HasWorth gs (constants_of frames.now) t (view.name name.now) (view.expr own.now) v.worth v.fault) }
{
    match given_to(given, &name.text) {
        Some(one) => Ok(weigh(kind, one.place, one.value.as_ref(), None)),
        None => {
            let weighed = own_worth(alloc, frames, kind, own)?;
            Ok(weighed)
        }
    }
}

// A parameter's worth by its own expression.
fn own_worth(
    alloc: Global,
    frames: &Frames,
    kind: ParameterType,
    own: &Expr,
) -> Result<Weighed, AllocError>
    ensures { let t = plain_type kind in
        IfOk result (λ v. HasOwnWorth (constants_of frames.now) t (view.expr own.now) v.worth v.fault) }
{
    let evaluated = evaluate(alloc, frames, own)?;
    Ok(weigh(
        kind,
        evaluated.place,
        evaluated.value.as_ref(),
        evaluated.fault,
    ))
}

// The value that is given to a parameter, if one is.
fn given_to<'g, 'a>(given: &'g [Given<'a>], name: &Text) -> Option<&'g Given<'a>>
    ensures { let gs = map plain_given given.now in
        found_given result ≡ given_in gs name.now }
{
    for one in given {
        if *one.name == *name {
            return Some(one);
        }
    }
    None
}

// The worth of a value that stands at a place, and the least of its own fault and that of the range.
fn weigh(kind: ParameterType, place: Place, value: Option<&Known>, fault: Option<Found>) -> Weighed
    ensures worth { plain_worth result.worth ≡ design.worth_of (plain_type kind) (meant_in value.entry) }
    ensures fault { let spoilt = spoilt_at (plain_type kind) (view.place place) (meant_in value.entry) in
        option_map found result.fault ≡ order.lesser (option_map found fault) (least spoilt) }
{
    match value {
        Some(known) => Weighed {
            worth: worth_of(kind, known),
            fault: lesser(fault, spoilt(kind.range, place)),
        },
        None => Weighed {
            worth: Worth::Faulty,
            fault,
        },
    }
}

// A value whose parameter has a range with a fault of phase 5 is no constant.
fn spoilt(range: Option<Span>, place: Place) -> Option<Found>
    ensures { let r = option_map plain_span range in
        option_map found result ≡ least (design.spoilt (view.place place) r) }
{
    let range = range?;
    let _fault = range.vector_fault(place)?;
    Some(Found {
        place,
        kind: FaultKind::NotConstant,
    })
}

// Of a declared range the width and the sign; else those of the value, which is signed where either is.
fn worth_of(kind: ParameterType, value: &Known) -> Worth
    ensures { plain_worth result ≡ design.typed (plain_type kind) (meant value.now) }
{
    match kind.range {
        None => Worth::Number(Constant {
            bits: value.own(),
            signed: kind.signed || value.size.signed,
        }),
        Some(range) => ranged(range, kind.signed, value),
    }
}

// Of a range the width and the declared sign.
fn ranged(range: Span, signed: bool, value: &Known) -> Worth
    ensures { let sh = shape_of signed (plain_span range) in
        plain_worth result ≡ design.ranged signed sh (meant value.now) }
{
    match range.shape(signed) {
        Some(shape) => Worth::Number(Constant {
            bits: assigned(value, width(shape.left, shape.right)),
            signed,
        }),
        None => Worth::Faulty,
    }
}
