//! What is wrong with a declaration by itself.

ghost use Rattle.std.specs.Prelude.{◌≡◌, IfOk};
ghost use Rattle.std.specs.Option.{option_map};
ghost use Rattle.vl_tree.specs.SyntaxView as view;
ghost use Rattle.vl_value.specs.Order.{least};
ghost use Rattle.vl_found.specs.View.{found};
ghost use Rattle.vl_design.specs.Lists.{each_of};
ghost use Rattle.vl_design.specs.ObjectFaults as faults;
ghost use Rattle.vl_declares.specs.Plain.{all_plain, plain, plain_local};

use crate::routine::routine_fault;
use std::alloc::{AllocError, Global};
use vl_declares::declared::{Declared, Local};
use vl_found::{Found, lesser};
use vl_tree::expression::Name;
use vl_tree::fault::FaultKind;
use vl_tree::item::{Direction, Kept};

/// The least fault of declarations by themselves.
pub fn declarations_fault(
    alloc: Global,
    declared: &[Declared<'_>],
) -> Result<Option<Found>, AllocError>
    ensures { let ds = all_plain declared.now in
        IfOk result (λ f. option_map found f ≡ least (each_of faults.declaration_faults ds)) }
{
    let mut fault = None;
    for one in declared {
        let found = declaration_fault(alloc, one)?;
        fault = lesser(fault, found);
    }
    Ok(fault)
}

fn declaration_fault(alloc: Global, declared: &Declared<'_>) -> Result<Option<Found>, AllocError>
    ensures { let d = plain declared.now in
        IfOk result (λ f. option_map found f ≡ least (faults.declaration_faults d)) }
{
    match declared {
        Declared::Port(direction, kept, local) => Ok(lesser(
            kept_fault(*direction, *kept, local.name),
            local_fault(local),
        )),
        Declared::Object(_, local) => Ok(local_fault(local)),
        Declared::Memory(local, words) => Ok(lesser(local_fault(local), words.words_fault())),
        Declared::Routine(routine) => {
            let fault = routine_fault(alloc, routine)?;
            Ok(fault)
        }
        Declared::Parameter(_, _) => Ok(None),
        Declared::Genvar(_) => Ok(None),
        Declared::Inner(_) => Ok(None),
    }
}

/// The least fault of a range of bits.
pub fn local_fault(local: &Local<'_>) -> Option<Found>
    ensures { let l = plain_local local.now in
        option_map found result ≡ least (faults.local_faults l) }
{
    local.span.vector_fault(local.name.place)
}

// BadPort at the name of an `input reg`.
fn kept_fault(direction: Direction, kept: Option<Kept>, name: &Name) -> Option<Found>
    ensures { let k = option_map view.kept kept in
        option_map found result ≡ least (faults.kept_faults (view.direction direction) k (view.name name.now)) }
{
    match (direction, kept) {
        (Direction::Input, Some(Kept::Reg)) => Some(Found {
            place: name.place,
            kind: FaultKind::BadPort,
        }),
        (Direction::Input, Some(Kept::Wire)) => None,
        (Direction::Input, None) => None,
        (Direction::Output, _) => None,
    }
}
