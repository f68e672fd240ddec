//! Loop variables of scopes.

ghost use Rattle.std.specs.Prelude.{◌≡◌, List, map, IfOk, OnOk};
ghost use Rattle.vl_design.specs.Lists.{each_of};
ghost use Rattle.vl_design.specs.LoopVariables as design;
ghost use Rattle.vl_loops.specs.Loops.{plain_loops};
ghost use Rattle.vl_paths.specs.Numbers.{AreNumbers};
ghost use Rattle.vl_paths.specs.Sets.{HoldsPaths};
ghost use Rattle.vl_scopes.specs.Plain.{plain_scopes};
ghost use Rattle.vl_sight.specs.Levels.{HoldsSights};
ghost use Rattle.vl_loop_paths.specs.Adding.{AddsPaths, AddsOfScope, looped_at};

use crate::names::{add_names, add_names_inside};
use std::alloc::{AllocError, Global};
use vl_loops::item::Loops;
use vl_loops::loops_of;
use vl_paths::numbers::PathNumbers;
use vl_paths::set::PathSet;
use vl_scopes::scope::Scope;
use vl_sight::sights::Sights;

/// The paths of the loop variables of all scopes. There is no memory for 2^32 scopes.
pub fn loop_variables<'a>(
    alloc: Global,
    scopes: &[Scope<'a>],
    sights: &Sights<'a>,
    numbers: &PathNumbers,
) -> Result<PathSet, AllocError>
    requires { HoldsSights scopes.now sights.now }
    ensures { let ss = plain_scopes scopes.now in
        IfOk result (λ set. AreNumbers numbers.now ss → HoldsPaths numbers.now set ss (design.loop_variables ss)) }
{
    let mut loops = PathSet::new(alloc);
    for k in 0..scopes.len() {
        let Ok(from) = u32::try_from(k) else {
            return Err(AllocError);
        };
        add_scope(alloc, scopes, sights, numbers, from, &scopes[k], &mut loops)?;
    }
    Ok(loops)
}

// Adds those of the scope of a number.
fn add_scope<'a>(
    alloc: Global,
    scopes: &[Scope<'a>],
    sights: &Sights<'a>,
    numbers: &PathNumbers,
    from: u32,
    scope: &Scope<'a>,
    loops: &mut PathSet,
) -> Result<(), AllocError>
    requires { HoldsSights scopes.now sights.now }
    ensures { let ss = plain_scopes scopes.now in
        OnOk result (AddsOfScope numbers.now ss from scope.now loops.old loops.new) }
{
    let all = loops_of(alloc, scope.origin.items())?;
    for one in all.as_slice() {
        add_loops(alloc, scopes, sights, numbers, from, one, loops)?;
    }
    Ok(())
}

// Adds those of one process or function.
fn add_loops<'a>(
    alloc: Global,
    scopes: &[Scope<'a>],
    sights: &Sights<'a>,
    numbers: &PathNumbers,
    from: u32,
    one: &Loops<'a>,
    loops: &mut PathSet,
) -> Result<(), AllocError>
    requires { HoldsSights scopes.now sights.now }
    ensures { let ss = plain_scopes scopes.now in
        let paths = looped_at ss from (plain_loops one.now) in
        OnOk result (AddsPaths numbers.now ss paths loops.old loops.new) }
{
    let names = one.variables.as_slice();
    match one.function {
        None => add_names(alloc, scopes, sights, numbers, from, names, loops),
        Some(name) => {
            add_names_inside(
                alloc, scopes, sights, numbers, from, &name.text, names, loops,
            )
        }
    }
}
