//! Data inputs of the top: its inputs that are no clock names.

ghost use Rattle.std.specs.Prelude.{◌≡◌, ◌++◌, map, filter, IfOk, OnOk};
ghost use Rattle.std.specs.Option.{option_map};
ghost use Rattle.vl_value.specs.Order.{least};
ghost use Rattle.vl_design.specs.ObjectFaults as design;
ghost use Rattle.vl_found.specs.View.{found};
ghost use Rattle.vl_objects.specs.Plain.{plain_object};
ghost use Rattle.vl_scopes.specs.Plain.{plain_scopes};
ghost use Rattle.vl_top_clocks.specs.Data.{AreKept, input_faults, is_data as design_data, kept_if};

use dt_core::limits;
use std::alloc::{AllocError, Global};
use vl_found::{Found, lesser};
use vl_limits::limit::Limit;
use vl_loop_paths::signals::signals;
use vl_objects::object::Object;
use vl_paths::numbers::PathNumbers;
use vl_paths::set::PathSet;
use vl_scopes::scope::Scope;
use vl_sight::names::is_input;
use vl_tree::fault::FaultKind;

/// The data inputs of a design with these loop variables and clock names, in order of text.
pub fn data_inputs<'a>(
    alloc: Global,
    scopes: &[Scope<'a>],
    numbers: &PathNumbers,
    loops: &PathSet,
    clocks: &PathSet,
) -> Result<Vec<Object<'a>>, AllocError>
    ensures { let ss = plain_scopes scopes.now in
        IfOk result (λ os. AreKept numbers.now loops.now clocks.now ss
        → map plain_object os.items ≡ design.data_inputs ss) }
{
    match scopes.first() {
        Some(top) => {
            let path = numbers.number(0);
            let own = signals(alloc, loops, path, top.declared.as_slice())?;
            data_of(alloc, own.as_slice(), path, clocks)
        }
        None => Ok(Vec::new(alloc)),
    }
}

/// TooManyInputs at the first data input with which there are more, or with more bits together, than a design may have.
pub fn inputs_fault(
    alloc: Global,
    scopes: &[Scope<'_>],
    numbers: &PathNumbers,
    loops: &PathSet,
    clocks: &PathSet,
) -> Result<Option<Found>, AllocError>
    ensures { let ss = plain_scopes scopes.now in
        IfOk result (λ f. AreKept numbers.now loops.now clocks.now ss
        → option_map found f ≡ least (input_faults (design.data_inputs ss))) }
{
    let inputs = data_inputs(alloc, scopes, numbers, loops, clocks)?;
    Ok(too_many(inputs.as_slice()))
}

// Those of some signals that are inputs and no clock names.
fn data_of<'a>(
    alloc: Global,
    signals: &[Object<'a>],
    path: usize,
    clocks: &PathSet,
) -> Result<Vec<Object<'a>>, AllocError>
    ensures { IfOk result (λ os. map plain_object os.items
        ≡ filter (design_data clocks.now path) (map plain_object signals.now)) }
{
    let mut kept = Vec::new(alloc);
    for object in signals {
        push_if(&mut kept, is_data(object, path, clocks), *object)?;
    }
    Ok(kept)
}

// Whether a net or variable is an input and no clock name.
fn is_data(object: &Object<'_>, path: usize, clocks: &PathSet) -> bool
    ensures { result ≡ design_data clocks.now path (plain_object object.now) }
{
    if !is_input(object) {
        return false;
    }
    !clocks.has(path, &object.name.text)
}

fn push_if<'a>(
    kept: &mut Vec<Object<'a>>,
    is_kept: bool,
    object: Object<'a>,
) -> Result<(), AllocError>
    ensures { let one = plain_object object.entry in
        OnOk result (map plain_object kept.new.items ≡ map plain_object kept.old.items ++ kept_if is_kept one) }
{
    if !is_kept {
        return Ok(());
    }
    match kept.push(object) {
        Ok(()) => Ok(()),
        Err(_) => Err(AllocError),
    }
}

// The fault of inputs that are too many, or have too many bits.
fn too_many(inputs: &[Object<'_>]) -> Option<Found>
    ensures { option_map found result ≡ least (input_faults (map plain_object inputs.now)) }
{
    let mut count = Limit::new(limits::MAX_INPUTS);
    let mut bits = Limit::new(limits::MAX_INPUT_BITS);
    for input in inputs {
        count.add(1, input.name.place);
        bits.add(input.range.width(), input.name.place);
    }
    lesser(
        count.fault(FaultKind::TooManyInputs),
        bits.fault(FaultKind::TooManyInputs),
    )
}
