//! The paths of what names of loops stand for.

ghost use Rattle.std.specs.Prelude.{◌≡◌, List, OnOk, Some};
ghost use Rattle.vl_value.specs.Paths.{Text as Name};
ghost use Rattle.vl_design.specs.LoopVariables.{object_path, paths_in};
ghost use Rattle.vl_design.specs.Objects as design;
ghost use Rattle.vl_design.specs.Scopes as scopes_of;
ghost use Rattle.vl_loops.specs.Statements.{texts};
ghost use Rattle.vl_scopes.specs.Plain.{levels_at, plain_scopes};
ghost use Rattle.vl_sight.specs.Bodies.{IsBody, routine_at};
ghost use Rattle.vl_sight.specs.Seen.{own_path, owned_path, sight_inside};
ghost use Rattle.vl_sight.specs.Levels.{HoldsSights};
ghost use Rattle.vl_loop_paths.specs.Adding.{AddsPaths};

use dt_core::text::Text;
use std::alloc::{AllocError, Global};
use vl_paths::numbers::PathNumbers;
use vl_paths::set::PathSet;
use vl_scopes::scope::Scope;
use vl_sight::body::Body;
use vl_sight::sights::Sights;
use vl_sight::thing::Owner;
use vl_tree::expression::Name as TreeName;

/// Adds what names stand for in the scope of a number.
pub fn add_names<'a>(
    alloc: Global,
    scopes: &[Scope<'a>],
    sights: &Sights<'a>,
    numbers: &PathNumbers,
    from: u32,
    names: &[&TreeName],
    loops: &mut PathSet,
) -> Result<(), AllocError>
    requires { HoldsSights scopes.now sights.now }
    ensures { let ss = plain_scopes scopes.now in
        let paths = paths_in (design.sight (levels_at ss (Some from))) (texts names.now) in
        OnOk result (AddsPaths numbers.now ss paths loops.old loops.new) }
{
    for name in names {
        let owner = sights.object(scopes, from, &name.text);
        add_below(alloc, numbers, owner, &name.text, loops)?;
    }
    Ok(())
}

/// Adds what names stand for in the body of a function of the scope of a number.
pub fn add_names_inside<'a>(
    alloc: Global,
    scopes: &[Scope<'a>],
    sights: &Sights<'a>,
    numbers: &PathNumbers,
    from: u32,
    function: &Text,
    names: &[&TreeName],
    loops: &mut PathSet,
) -> Result<(), AllocError>
    requires { HoldsSights scopes.now sights.now }
    ensures { let ss = plain_scopes scopes.now in
        let paths = paths_in (sight_inside ss from function.now) (texts names.now) in
        OnOk result (AddsPaths numbers.now ss paths loops.old loops.new) }
{
    let body = sights.body(alloc, scopes, from, function)?;
    for name in names {
        let owner = sights.object_inside(scopes, from, &body, &name.text);
        add_owned(alloc, numbers, owner, function, &name.text, loops)?;
    }
    Ok(())
}

// Adds the path of a name below that of a scope, if there is one.
fn add_below(
    alloc: Global,
    numbers: &PathNumbers,
    owner: Option<u32>,
    name: &Text,
    loops: &mut PathSet,
) -> Result<(), AllocError>
    ensures { OnOk result ((ss : List scopes_of.Scope)
        → AddsPaths numbers.now ss (own_path ss name.now owner) loops.old loops.new) }
{
    let Some(scope) = owner else {
        return Ok(());
    };
    loops.add(alloc, Some(numbers.number(scope as usize)), name)
}

// Adds the path of a name below that of a scope or of a function of one, if there is one.
fn add_owned(
    alloc: Global,
    numbers: &PathNumbers,
    owner: Option<Owner>,
    function: &Text,
    name: &Text,
    loops: &mut PathSet,
) -> Result<(), AllocError>
    ensures { OnOk result ((ss : List scopes_of.Scope)
        → AddsPaths numbers.now ss (owned_path ss function.now name.now owner) loops.old loops.new) }
{
    let Some(one) = owner else {
        return Ok(());
    };
    add_of(alloc, numbers, one, function, name, loops)
}

// Adds the path of a name below that of a scope or of a function of one.
fn add_of(
    alloc: Global,
    numbers: &PathNumbers,
    owner: Owner,
    function: &Text,
    name: &Text,
    loops: &mut PathSet,
) -> Result<(), AllocError>
    ensures { let o = owner in OnOk result ((ss : List scopes_of.Scope)
        → AddsPaths numbers.now ss (owned_path ss function.now name.now (Some o)) loops.old loops.new) }
{
    match owner {
        Owner::Scope(scope) => loops.add(alloc, Some(numbers.number(scope as usize)), name),
        Owner::Function(scope) => {
            let path = numbers.inside(alloc, scope, function)?;
            loops.add(alloc, path, name)
        }
    }
}
