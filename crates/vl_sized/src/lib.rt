//! Sized expressions: what an expression is at its context, with names resolved, or the least of its faults.
//!
//! Below: `vl_width` (names in sight, constants, the table of operators), `vl_found` (which fault is told), `vl_value` (what
//! an expression means, what it reads, which faults it has), `vl_tree` (trees), `bit_ops` (operators).
//! Above: what makes nodes of a numbered design.
//! Promise: `size_expr` gives, exactly where `vl_value` has no fault of phase 6, an expression whose width, sign, value
//! in each moment and reads are those that `vl_value` defines at the context; else the least of its faults. `value::value` is what a sized
//! expression is worth in a moment, for every tree and all numbers that the moment gives.
//! A tree is gone through once (`walk`): each part is sized, or the least fault so far stands in its place
//! (`combine`); so a fault and a size are one answer.
//! Not said: that memory is enough.
#![tactic(auto)]

ghost use Rattle.std.specs.Prelude.{◌≤◌, IfOk, IfErr};
ghost use Rattle.vl_tree.specs.SyntaxView as view;
ghost use Rattle.vl_tree.specs.Fault.{fault_of};
ghost use Rattle.vl_value.specs.Faults.{faults};
ghost use Rattle.vl_width.specs.Told.{Tells};
ghost use Rattle.vl_sized.specs.Answered.{IsSized};

mod beside;
mod build;
mod combine;
mod constancy;
pub mod node;
pub mod numbers;
mod picks;
mod select;
pub mod value;
mod walk;
pub mod whole;

use dt_core::limits::MAX_WIDTH;
use node::SizedExpr;
use std::alloc::Global;
use vl_tree::expression::Expr;
use vl_tree::fault::StaticFault;
use vl_width::names::Names;

/// What an expression is at its context: at the larger of its own width and the target's, which is 0 for an expression
/// that is evaluated by itself.
///
/// `At` is the least of its faults, of phase 6; `Memory` says nothing.
pub fn size_expr<N: Names>(
    alloc: Global,
    names: &N,
    e: &Expr,
    context: u32,
) -> Result<SizedExpr, StaticFault>
    requires { context ≤ MAX_WIDTH }
    ensures value { let s = N.sight names.now in let ns = N.numbering names.now in
        IfOk result (λ x. IsSized s ns (view.expr e.now) context x) }
    ensures fault { let fs = faults (N.sight names.now) (view.expr e.now) in
        IfErr result (λ f. Tells 6 fs (fault_of f)) }
{
    match walk::size(alloc, names, e) {
        Ok(Ok(sized)) => Ok(sized.at_least(context)),
        Ok(Err(fault)) => Err(fault.of_phase(6)),
        Err(_) => Err(StaticFault::Memory),
    }
}
