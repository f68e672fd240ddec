//! What is made of sized operands, any of which may be a fault in its place: of two faults the lesser is told.

ghost use Rattle.std.specs.Prelude.{◌≡◌, Some, IfOk, IfSome, map, length};
ghost use Rattle.std.specs.Option.{option_map};
ghost use Rattle.vl_tree.specs.SyntaxView as view;
ghost use Rattle.vl_value.specs.Meaning as meaning;
ghost use Rattle.vl_width.specs.Objects.{Numbering, thing, plain_shape, HasInputs};
ghost use Rattle.vl_sized.specs.Moments.{on_one, on_two};
ghost use Rattle.vl_sized.specs.Sensed as sensed;
ghost use Rattle.vl_found.specs.View.{found};
ghost use Rattle.vl_sized.specs.Told.{mapped, joint, joined_to};
ghost use Rattle.vl_sized.specs.Nodes.{whole_of};
ghost use Rattle.vl_sized.specs.Wholes.{integer, if_width};
ghost use Rattle.vl_sized.specs.Plain.{sense_of, case_of, judged, Gives, width_together};

use crate::build;
use crate::node::{Case, Node, SizedExpr, SizedNode};
use crate::picks::Judged;
use crate::select::{if_copied, nothing, whole_size};
use crate::whole::Whole;
use bit_ops::{Binary, Unary};
use dt_core::limits::MAX_WIDTH;
use dt_core::place::Place;
use sqlite_items::Items;
use std::alloc::{AllocError, Global};
use vl_found::{Found, first_of, lesser};
use vl_tree::expression::{Name, SystemFunction};
use vl_tree::fault::FaultKind;
use vl_width::names::{Names, Object};
use vl_width::number::Constant;
use vl_width::shape::Shape;

/// An operator before an operand.
pub fn unary(alloc: Global, operator: Unary, a: Judged) -> Result<Judged, AllocError>
    ensures { (ns : Numbering) → let k = sense_of ns in
        Gives k result (mapped (on_one (meaning.unary_of operator)) (judged k a)) }
{
    match a {
        Ok(a) => Ok(Ok(build::unary(alloc, operator, a)?)),
        Err(fault) => Ok(Err(fault)),
    }
}

/// A function of the language.
pub fn system(alloc: Global, function: SystemFunction, a: Judged) -> Result<Judged, AllocError>
    ensures { (ns : Numbering) → let k = sense_of ns in
        Gives k result (mapped (on_one (meaning.system_of (view.system_function function))) (judged k a)) }
{
    match a {
        Ok(a) => Ok(Ok(build::system(alloc, function, a)?)),
        Err(fault) => Ok(Err(fault)),
    }
}

/// An operator between two operands.
pub fn operated(alloc: Global, operator: Binary, a: Judged, b: Judged) -> Result<Judged, AllocError>
    ensures { (ns : Numbering) → let k = sense_of ns in
        Gives k result (joint (on_two (meaning.binary_of operator)) (judged k a) (judged k b)) }
{
    match (a, b) {
        (Ok(a), Ok(b)) => Ok(Ok(build::binary(alloc, operator, a, b)?)),
        (Ok(_), Err(fault)) => Ok(Err(fault)),
        (Err(fault), Ok(_)) => Ok(Err(fault)),
        (Err(first), Err(second)) => Ok(Err(first_of(first, second))),
    }
}

/// A condition, and the value where it holds.
pub fn paired(condition: Judged, value: Judged) -> Result<Case<Node>, Found>
    ensures { (ns : Numbering) → let k = sense_of ns in
        judged (case_of ns) result ≡ joint sensed.paired (judged k condition) (judged k value) }
{
    match (condition, value) {
        (Ok(condition), Ok(value)) => Ok(Case { condition, value }),
        (Ok(_), Err(fault)) => Err(fault),
        (Err(fault), Ok(_)) => Err(fault),
        (Err(first), Err(second)) => Err(first_of(first, second)),
    }
}

/// A list with one more.
pub fn joined<T: Drop>(
    all: Result<Items<T>, Found>,
    next: Result<T, Found>,
) -> Result<Result<Items<T>, Found>, AllocError>
    ensures { IfOk result (λ r. r ≡ joined_to all next) }
{
    match (all, next) {
        (Ok(mut all), Ok(next)) => {
            all.push(next)?;
            Ok(Ok(all))
        }
        (Ok(_), Err(fault)) => Ok(Err(fault)),
        (Err(fault), Ok(_)) => Ok(Err(fault)),
        (Err(first), Err(second)) => Ok(Err(first_of(first, second))),
    }
}

/// The value of the first case whose condition holds, or the last value.
pub fn chosen(
    alloc: Global,
    cases: Result<Items<Case<Node>>, Found>,
    last: Judged,
) -> Result<Judged, AllocError>
    ensures { (ns : Numbering) → let k = sense_of ns in
        Gives k result (joint sensed.chosen_among (judged (map (case_of ns)) cases) (judged k last)) }
{
    match (cases, last) {
        (Ok(cases), Ok(last)) => Ok(Ok(build::choose(alloc, cases, last)?)),
        (Ok(_), Err(fault)) => Ok(Err(fault)),
        (Err(fault), Ok(_)) => Ok(Err(fault)),
        (Err(first), Err(second)) => Ok(Err(first_of(first, second))),
    }
}

/// `{a, b}`
pub fn braces(place: Place, parts: Result<Items<SizedExpr>, Found>) -> Judged
    ensures { (ns : Numbering) → let k = sense_of ns in
        judged k result ≡ sensed.braces_sensed (view.place place) (judged (map k) parts) }
{
    match parts {
        Ok(parts) => match together(parts.as_slice()) {
            Some(width) => Ok(build::braces(parts, width)),
            None => Err(Found {
                place,
                kind: FaultKind::TooWide,
            }),
        },
        Err(fault) => Err(fault),
    }
}

// How many bits parts have together; none where no vector has so many.
fn together(parts: &[SizedExpr]) -> Option<u32>
    ensures { result ≡ if_width (width_together parts.now) }
{
    let mut width = 0;
    for part in parts {
        width += part.size.width;
        if width > MAX_WIDTH {
            return None;
        }
    }
    if width == 0 { None } else { Some(width) }
}

/// `{n{a, b}}`: the fault of the count comes first, then those of the parts, then its own.
pub fn copied(
    place: Place,
    needed: Option<Found>,
    count: Option<Constant>,
    parts: Result<Items<SizedExpr>, Found>,
) -> Judged
    ensures { (ns : Numbering) → let k = sense_of ns in let n = option_map whole_of count in
        judged k result ≡ sensed.copies_sensed (view.place place) n (option_map found needed) (judged (map k) parts) }
{
    match parts {
        Ok(parts) => {
            let own = if_copied(place, None, count, together(parts.as_slice()));
            match lesser(needed, own) {
                Some(fault) => Err(fault),
                None => Ok(copies(count, parts)),
            }
        }
        Err(inner) => {
            let own = if_copied(place, Some(inner), count, None);
            match lesser(needed, lesser(Some(inner), own)) {
                Some(fault) => Err(fault),
                None => Ok(nothing()),
            }
        }
    }
}

// So many copies of parts, where a vector has so many bits.
fn copies(count: Option<Constant>, parts: Items<SizedExpr>) -> SizedExpr
    ensures { (ns : Numbering) →
        sense_of ns result ≡ sensed.copied_sense (option_map whole_of count) (map (sense_of ns) parts) }
{
    match count {
        Some(number) => copies_of(Whole::of(number), parts),
        None => nothing(),
    }
}

fn copies_of(count: Whole, parts: Items<SizedExpr>) -> SizedExpr
    ensures { (ns : Numbering) →
        sense_of ns result ≡ sensed.copied_sense (Some (integer count)) (map (sense_of ns) parts) }
{
    if count.is_below_one() {
        return nothing();
    }
    match count.times(together(parts.as_slice())) {
        Some(width) => match count.bits() {
            Some(number) => build::repeated(number, parts, width),
            None => nothing(),
        },
        None => nothing(),
    }
}

/// A call with so many arguments: their faults come first.
pub fn call<N: Names>(
    alloc: Global,
    names: &N,
    name: &Name,
    count: usize,
    inputs: Result<Items<SizedExpr>, Found>,
) -> Result<Judged, AllocError>
    ensures { let k = sense_of (N.numbering names.now) in let o = N.sight names.now name.now.text in
        Gives k result (sensed.call_sensed o (view.place name.now.place) count (judged (map k) inputs)) }
{
    let object = names.find(&name.text);
    let own = of_call(object, name.place, count);
    match (inputs, own) {
        (Err(inner), Some(own)) => Ok(Err(first_of(inner, own))),
        (Err(inner), None) => Ok(Err(inner)),
        (Ok(_), Some(own)) => Ok(Err(own)),
        (Ok(inputs), None) => Ok(Ok(called(alloc, names, object, inputs)?)),
    }
}

// The fault of a call with so many arguments.
fn of_call(object: Option<Object>, place: Place, count: usize) -> Option<Found>
    ensures { (ns : Numbering) → IfSome object (HasInputs ns) →
        option_map found result ≡ sensed.of_call (option_map (thing ns) object) (view.place place) count }
{
    let kind = match object {
        Some(Object::Function { inputs, .. }) if inputs as usize == count => return None,
        Some(_) => FaultKind::BadCall,
        None => FaultKind::UnknownName,
    };
    Some(Found { place, kind })
}

// A call of a function.
fn called<N: Names>(
    alloc: Global,
    names: &N,
    object: Option<Object>,
    inputs: Items<SizedExpr>,
) -> Result<SizedExpr, AllocError>
    requires { IfSome object (HasInputs (N.numbering names.now)) }
    ensures { let ns = N.numbering names.now in
        IfOk result (λ x. sense_of ns x ≡ sensed.called (option_map (thing ns) object) (map (sense_of ns) inputs)) }
{
    let Some(object) = object else {
        return Ok(nothing());
    };
    match object {
        Object::Function {
            number,
            shape,
            inputs: count,
            ..
        } => {
            let shapes = input_shapes(alloc, names, number, count)?;
            Ok(SizedNode {
                size: whole_size(shape),
                node: Node::Call(number, shape, inputs, shapes),
            })
        }
        Object::Signal { .. } => Ok(nothing()),
        Object::Memory { .. } => Ok(nothing()),
        Object::Constant(_) => Ok(nothing()),
        Object::Local { .. } => Ok(nothing()),
    }
}

// The shapes of a function's inputs.
fn input_shapes<N: Names>(
    alloc: Global,
    names: &N,
    function: u32,
    count: u32,
) -> Result<Items<Shape>, AllocError>
    requires { length ((N.numbering names.now).inputs function) ≡ count }
    ensures { IfOk result (λ shs. map plain_shape shs ≡ (N.numbering names.now).inputs function) }
{
    let mut shapes = Items::new(alloc);
    for k in 0..count {
        shapes.push(names.input(function, k))?;
    }
    Ok(shapes)
}
