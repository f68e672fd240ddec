//! Signals: nets and variables that are no loop variables.

ghost use Rattle.std.specs.Prelude.{◌≡◌, ◌++◌, [], List, map, filter, IfOk, OnOk};
ghost use Rattle.std.specs.Option.{option_map};
ghost use Rattle.vl_value.specs.Paths.{Path};
ghost use Rattle.vl_value.specs.Order.{least};
ghost use Rattle.vl_tree.specs.declared.fault.FaultKind.TheVariants.{TooManySignals};
ghost use Rattle.dt_core.specs.declared.limits.TheConstants.{MAX_SIGNALS};
ghost use Rattle.vl_design.specs.Lists.{each_of};
ghost use Rattle.vl_design.specs.LoopVariables as design;
ghost use Rattle.vl_design.specs.Objects.{counted_behind, objects_of};
ghost use Rattle.vl_design.specs.ObjectFaults.{beyond, places_of, told};
ghost use Rattle.vl_declares.specs.Plain.{all_plain};
ghost use Rattle.vl_found.specs.View.{found};
ghost use Rattle.vl_limits.specs.Counting.{Adds};
ghost use Rattle.vl_objects.specs.Plain.{plain_object};
ghost use Rattle.vl_paths.specs.Sets.{HoldsPaths};
ghost use Rattle.vl_scopes.specs.Plain.{plain_scopes};
ghost use Rattle.vl_loop_paths.specs.Signals.{is_signal, kept_unless, HasSignalsFault};

use dt_core::limits;
use std::alloc::{AllocError, Global};
use vl_declares::declared::Declared;
use vl_found::Found;
use vl_limits::limit::Limit;
use vl_objects::object::{Object, objects};
use vl_paths::numbers::PathNumbers;
use vl_paths::set::PathSet;
use vl_scopes::scope::Scope;
use vl_tree::fault::FaultKind;

/// The signals of what a scope declares whose path has a number, in order of text.
pub fn signals<'a>(
    alloc: Global,
    loops: &PathSet,
    path: usize,
    declared: &[Declared<'a>],
) -> Result<Vec<Object<'a>>, AllocError>
    ensures { let ds = counted_behind [] (all_plain declared.now) in
        IfOk result (λ os. map plain_object os.items ≡ filter (is_signal loops.now path) (objects_of ds ds)) }
{
    let all = objects(alloc, declared)?;
    let mut kept = Vec::new(alloc);
    for object in all.as_slice() {
        let is_loop = loops.has(path, &object.name.text);
        push_unless(&mut kept, is_loop, *object)?;
    }
    Ok(kept)
}

fn push_unless<'a>(
    kept: &mut Vec<Object<'a>>,
    is_loop: bool,
    object: Object<'a>,
) -> Result<(), AllocError>
    ensures { let one = plain_object object.entry in
        OnOk result (map plain_object kept.new.items ≡ map plain_object kept.old.items ++ kept_unless is_loop one) }
{
    if is_loop {
        return Ok(());
    }
    match kept.push(object) {
        Ok(()) => Ok(()),
        Err(_) => Err(AllocError),
    }
}

/// TooManySignals at the first signal with which there are more than a design may have.
pub fn signals_fault(
    alloc: Global,
    scopes: &[Scope<'_>],
    numbers: &PathNumbers,
    loops: &PathSet,
) -> Result<Option<Found>, AllocError>
    ensures { let ss = plain_scopes scopes.now in
        IfOk result (λ f. (ps : List Path) → HoldsPaths numbers.now loops.now ss ps → HasSignalsFault ss ps f) }
{
    let mut limit = Limit::new(limits::MAX_SIGNALS);
    for k in 0..scopes.len() {
        let own = signals(
            alloc,
            loops,
            numbers.number(k),
            scopes[k].declared.as_slice(),
        )?;
        add_objects(&mut limit, own.as_slice());
    }
    Ok(limit.fault(FaultKind::TooManySignals))
}

// Counts one for each object.
fn add_objects(limit: &mut Limit, objects: &[Object<'_>])
    ensures { Adds (places_of (λ o. 1) (map plain_object objects.now)) limit.old limit.new }
{
    for object in objects {
        limit.add(1, object.name.place);
    }
}
