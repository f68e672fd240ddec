//! Clock names of scopes.

ghost use Rattle.std.specs.Prelude.{◌≡◌, IfOk, OnOk};
ghost use Rattle.vl_design.specs.Clocks as design;
ghost use Rattle.vl_paths.specs.Numbers.{AreNumbers};
ghost use Rattle.vl_paths.specs.Sets.{HoldsPaths};
ghost use Rattle.vl_scopes.specs.Plain.{plain_scopes};
ghost use Rattle.vl_sight.specs.Levels.{HoldsSights};
ghost use Rattle.vl_top_clocks.specs.Passing.{AddsClocks, AddsOuter};

use crate::passed::passed_names;
use std::alloc::{AllocError, Global};
use vl_clocks::clock_names;
use vl_loop_paths::names::add_names;
use vl_paths::numbers::PathNumbers;
use vl_paths::set::PathSet;
use vl_scopes::scope::Scope;
use vl_sight::sights::{Sights, lower};
use vl_tree::expression::Name;

/// The paths of the clock names of a design. There is no memory for 2^32 scopes.
pub fn clocks<'a>(
    alloc: Global,
    scopes: &[Scope<'a>],
    sights: &Sights<'a>,
    numbers: &PathNumbers,
) -> Result<PathSet, AllocError>
    requires { HoldsSights scopes.now sights.now }
    ensures { let ss = plain_scopes scopes.now in
        IfOk result (λ set. AreNumbers numbers.now ss → HoldsPaths numbers.now set ss (design.clocks_at_top ss)) }
{
    let mut clocks = PathSet::new(alloc);
    // From the last on: what is inside a scope stands behind it.
    for k in (0..scopes.len()).rev() {
        let Ok(from) = u32::try_from(k) else {
            return Err(AllocError);
        };
        add_scope(
            alloc,
            scopes,
            sights,
            numbers,
            from,
            &scopes[k],
            &mut clocks,
        )?;
    }
    Ok(clocks)
}

// Adds the clock names of the scope of a number, and those that it passes up.
fn add_scope<'a>(
    alloc: Global,
    scopes: &[Scope<'a>],
    sights: &Sights<'a>,
    numbers: &PathNumbers,
    from: u32,
    scope: &Scope<'a>,
    clocks: &mut PathSet,
) -> Result<(), AllocError>
    requires { HoldsSights scopes.now sights.now }
    ensures { let ss = plain_scopes scopes.now in
        OnOk result (AddsClocks numbers.now ss from scope.now clocks.old clocks.new) }
{
    let names = clock_names(alloc, scope.origin.items())?;
    add_names(
        alloc,
        scopes,
        sights,
        numbers,
        from,
        names.as_slice(),
        clocks,
    )?;
    let passed = passed_names(
        alloc,
        sights,
        from,
        numbers.number(from as usize),
        scope,
        clocks,
    )?;
    let outer = lower(scope.within, from);
    add_outer(
        alloc,
        scopes,
        sights,
        numbers,
        outer,
        passed.as_slice(),
        clocks,
    )
}

// Adds what names stand for in the scope of a number, if there is one.
fn add_outer<'a>(
    alloc: Global,
    scopes: &[Scope<'a>],
    sights: &Sights<'a>,
    numbers: &PathNumbers,
    outer: Option<u32>,
    names: &[&Name],
    clocks: &mut PathSet,
) -> Result<(), AllocError>
    requires { HoldsSights scopes.now sights.now }
    ensures { let ss = plain_scopes scopes.now in
        OnOk result (AddsOuter numbers.now ss outer names.now clocks.old clocks.new) }
{
    match outer {
        Some(from) => add_names(alloc, scopes, sights, numbers, from, names, clocks),
        None => Ok(()),
    }
}
