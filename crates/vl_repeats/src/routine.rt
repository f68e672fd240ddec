//! What is wrong with the names and ranges of a function.

ghost use Rattle.std.specs.Prelude.{◌≡◌, ◌∷◌, [], IfOk};
ghost use Rattle.std.specs.Option.{option_map};
ghost use Rattle.vl_tree.specs.SyntaxView as view;
ghost use Rattle.vl_value.specs.Order.{least};
ghost use Rattle.vl_found.specs.View.{found};
ghost use Rattle.vl_design.specs.Lists.{each_of};
ghost use Rattle.vl_design.specs.ObjectFaults as faults;
ghost use Rattle.vl_declares.specs.Plain.{plain, plain_local, plain_routine};
ghost use Rattle.vl_declares.specs.Locals.{all_locals};
ghost use Rattle.vl_repeats.specs.Routines.{repeats_here, routine_faults};

use crate::declaration::local_fault;
use std::alloc::{AllocError, Global};
use vl_declares::declared::{Local, Routine};
use vl_found::{Found, lesser};
use vl_names::NameSet;
use vl_tree::expression::Name;
use vl_tree::fault::FaultKind;

/// The least fault of a function's declarations: of names that its own, its inputs and its variables repeat, and of their
/// ranges.
pub fn routine_fault(alloc: Global, routine: &Routine<'_>) -> Result<Option<Found>, AllocError>
    ensures { let r = plain_routine routine.now in
        IfOk result (λ f. option_map found f ≡ least (routine_faults r)) }
{
    let locals = routine.locals.as_slice();
    let names = names_fault(alloc, routine.result.name, locals)?;
    let ranges = lesser(local_fault(&routine.result), ranges_fault(locals));
    Ok(lesser(names, ranges))
}

// The least fault of names behind a function's own.
fn names_fault(alloc: Global, own: &Name, locals: &[Local<'_>]) -> Result<Option<Found>, AllocError>
    ensures { let x = view.name own.now in let ls = all_locals locals.now in
        IfOk result (λ f. option_map found f ≡ least (faults.same_locals (x.text ∷ []) ls)) }
{
    let mut names = NameSet::new(alloc);
    names.add(alloc, &own.text)?;
    let mut fault = None;
    for local in locals {
        let is_known = names.has(&local.name.text);
        fault = lesser(fault, repeated(is_known, local.name));
        names.add(alloc, &local.name.text)?;
    }
    Ok(fault)
}

// Duplicate at a name that is known.
fn repeated(is_known: bool, name: &Name) -> Option<Found>
    ensures { let x = view.name name.now in
        option_map found result ≡ least (repeats_here is_known x) }
{
    if !is_known {
        return None;
    }
    Some(Found {
        place: name.place,
        kind: FaultKind::Duplicate,
    })
}

// The least fault of the ranges of inputs and variables.
fn ranges_fault(locals: &[Local<'_>]) -> Option<Found>
    ensures { let ls = all_locals locals.now in
        option_map found result ≡ least (each_of faults.local_faults ls) }
{
    let mut fault = None;
    for local in locals {
        fault = lesser(fault, local_fault(local));
    }
    fault
}
