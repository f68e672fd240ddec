//! Names of the parent at inputs of an instance that are clock names.

ghost use Rattle.std.specs.Prelude.{◌≡◌, ◌++◌, ◌&&◌, List, IfOk, OnOk, map};
ghost use Rattle.vl_clocks.specs.Names.{Adds, texts};
ghost use Rattle.vl_joins.specs.Joins.{plain_join};
ghost use Rattle.vl_paths.specs.Sets as sets;
ghost use Rattle.vl_scopes.specs.Plain.{plain_scopes};
ghost use Rattle.vl_sight.specs.Levels.{HoldsSights, is_input_at};
ghost use Rattle.vl_top_clocks.specs.Passing.{IsPassedUp, is_passed, names_at, name_if};

use dt_core::text::Text;
use std::alloc::{AllocError, Global};
use vl_joins::{Join, joins};
use vl_paths::set::PathSet;
use vl_scopes::scope::{Origin, Scope};
use vl_sight::sights::Sights;
use vl_tree::expression::Name;

/// The plain names that are connected to those inputs of a scope that are clock names; of an instance alone. The scope has a number, and
/// its path another one.
pub fn passed_names<'a>(
    alloc: Global,
    sights: &Sights<'a>,
    number: u32,
    path: usize,
    scope: &Scope<'a>,
    clocks: &PathSet,
) -> Result<Vec<&'a Name>, AllocError>
    ensures { IfOk result (λ xs. (cs : List Scope) → HoldsSights cs sights.now
        → IsPassedUp (plain_scopes cs) number path scope.now clocks.now (texts xs.items)) }
{
    match scope.origin {
        Origin::Instance(parent, instance) => {
            let all = joins(alloc, parent, &instance.binds)?;
            names_of(alloc, sights, number, path, all.as_slice(), clocks)
        }
        Origin::Top(_) => Ok(Vec::new(alloc)),
        Origin::Block(_) => Ok(Vec::new(alloc)),
    }
}

// The names of those joins whose port is an input and a clock name.
fn names_of<'a>(
    alloc: Global,
    sights: &Sights<'a>,
    number: u32,
    path: usize,
    all: &[Join<'a>],
    clocks: &PathSet,
) -> Result<Vec<&'a Name>, AllocError>
    ensures { IfOk result (λ xs. (cs : List Scope) → HoldsSights cs sights.now
        → texts xs.items ≡ names_at (plain_scopes cs) number path clocks.now (map plain_join all.now)) }
{
    let mut names = Vec::new(alloc);
    for join in all {
        let passes = passes_up(sights, number, path, &join.port.text, clocks);
        push_if(&mut names, passes, join.name)?;
    }
    Ok(names)
}

// Whether a port of a scope is an input and a clock name.
fn passes_up(sights: &Sights<'_>, number: u32, path: usize, port: &Text, clocks: &PathSet) -> bool
    ensures { (cs : List Scope) → HoldsSights cs sights.now
        → result ≡ is_passed (plain_scopes cs) number path clocks.now port.now }
{
    if !clocks.has(path, port) {
        return false;
    }
    sights.is_input(number, port)
}

fn push_if<'a>(names: &mut Vec<&'a Name>, passes: bool, name: &'a Name) -> Result<(), AllocError>
    ensures { OnOk result (Adds (name_if passes name.now) names.old.items names.new.items) }
{
    if !passes {
        return Ok(());
    }
    match names.push(name) {
        Ok(()) => Ok(()),
        Err(_) => Err(AllocError),
    }
}
