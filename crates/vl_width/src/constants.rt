//! Constant expressions.

ghost use Rattle.std.specs.Prelude.{◌≡◌, IfOk, IfErr, None};
ghost use Rattle.std.specs.Option.{option_map};
ghost use Rattle.vl_tree.specs.SyntaxView as view;
ghost use Rattle.vl_tree.specs.Fault.{fault_of};
ghost use Rattle.vl_value.specs.Constant.{is_constant};
ghost use Rattle.vl_value.specs.Faults.{constant_meaning, early_faults, settled, unsettled};
ghost use Rattle.vl_value.specs.Faults as faults;
ghost use Rattle.vl_width.specs.Objects.{plain_constant};
ghost use Rattle.vl_width.specs.Told.{parameter_of, IsConstantOf, Tells};

use crate::names::Names;
use crate::number::Constant as Number;
use crate::place::start;
use crate::walk::fold;
use std::alloc::{AllocError, Global};
use vl_tree::expression::Expr;
use vl_tree::fault::{FaultKind, FaultPlace, StaticFault};

/// The number that a constant expression is, among the names in sight.
///
/// NotConstant of phase 4 at the first token where the expression isn't constant, or has a fault of phase 6. `Memory`
/// says nothing.
pub fn constant<N: Names>(alloc: Global, names: &N, e: &Expr) -> Result<Number, StaticFault>
    ensures value { IfOk result (λ c. IsConstantOf (N.sight names.now) (view.expr e.now) c) }
    ensures fault { IfErr result (λ f. Tells 4 (early_faults (N.sight names.now) (view.expr e.now)) (fault_of f)) }
{
    match fold(alloc, names, e) {
        Ok(Some(known)) => Ok(known.constant()),
        Ok(None) => Err(not_constant(e)),
        Err(_) => Err(StaticFault::Memory),
    }
}

/// The number that an expression is where it is constant and has no fault; else none.
pub fn settled_constant<N: Names>(
    alloc: Global,
    names: &N,
    e: &Expr,
) -> Result<Option<Number>, AllocError>
    ensures { let s = N.sight names.now in let x = view.expr e.now in
        IfOk result (λ c. option_map plain_constant c ≡ settled (is_constant s x) (faults.faults s x) (parameter_of (constant_meaning s x))) }
{
    match fold(alloc, names, e)? {
        Some(known) => Ok(Some(known.constant())),
        None => Ok(None),
    }
}

// That a constant is needed where an expression is none.
fn not_constant(e: &Expr) -> StaticFault
    ensures { Tells 4 (unsettled (faults.start (view.expr e.now)) None) (fault_of result) }
{
    let place = start(e);
    StaticFault::At {
        phase: 4,
        place: FaultPlace {
            line: place.line,
            token: Some(place.token),
        },
        kind: FaultKind::NotConstant,
    }
}
