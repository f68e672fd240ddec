//! Declarations of parameters.

ghost use Rattle.std.specs.Prelude.{◌≡◌, IfOk, map};
ghost use Rattle.vl_tree.specs.SyntaxView as view;
ghost use Rattle.vl_parameters.specs.Plain.{plain_given, plain_type};
ghost use Rattle.vl_declares.specs.Values.{DeclaresOne, DeclaresValues};

use crate::declared::{Declared, push};
use std::alloc::{AllocError, Global};
use vl_found::{Found, lesser};
use vl_frames::frames::Frames;
use vl_parameters::worth::{Given, ParameterType, parameter};
use vl_tree::expression::{Expr, Name};
use vl_tree::item::Valued;

/// Declares parameters of one type in order, each of which sees those before it; the least of their faults.
pub fn declare_values<'a>(
    alloc: Global,
    frames: &mut Frames,
    given: &[Given<'_>],
    kind: ParameterType,
    values: &'a [Valued],
    declared: &mut Vec<Declared<'a>>,
) -> Result<Option<Found>, AllocError>
    ensures { let gs = map plain_given given.now in let vs = map view.valued values.now in
        IfOk result (λ f. DeclaresValues gs (plain_type kind) vs frames.old frames.new declared.old.items declared.new.items f) }
{
    let mut fault = None;
    for value in values {
        let found = declare_one(
            alloc,
            frames,
            given,
            kind,
            &value.name,
            &value.value,
            declared,
        )?;
        fault = lesser(fault, found);
    }
    Ok(fault)
}

/// Declares a parameter; the least of its faults.
pub fn declare_one<'a>(
    alloc: Global,
    frames: &mut Frames,
    given: &[Given<'_>],
    kind: ParameterType,
    name: &'a Name,
    own: &Expr,
    declared: &mut Vec<Declared<'a>>,
) -> Result<Option<Found>, AllocError>
    ensures { let gs = map plain_given given.now in let x = view.name name.now in
        IfOk result (λ f. DeclaresOne gs (plain_type kind) x (view.expr own.now) frames.old frames.new declared.old.items declared.new.items f) }
{
    let weighed = parameter(alloc, frames, given, kind, name, own)?;
    frames.declare(alloc, &name.text, weighed.worth)?;
    push(declared, Declared::Parameter(name, weighed.worth))?;
    Ok(weighed.fault)
}
