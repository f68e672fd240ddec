//! Functions.

ghost use Rattle.std.specs.Prelude.{◌≡◌, ◌++◌, ◌∷◌, [], length, map, IfOk, OnOk};
ghost use Rattle.vl_design.specs.Objects.{counted_behind};
ghost use Rattle.vl_design.specs.Design as design;
ghost use Rattle.vl_scopes.specs.Plain.{plain_scopes};
ghost use Rattle.vl_declares.specs.Plain.{all_plain, plain};
ghost use Rattle.vl_repeats.specs.Flags.{picked};
ghost use Rattle.vl_memories.specs.Numbered.{AddsCallables, callable_by, one_if, scope_at};

use std::alloc::{AllocError, Global};
use vl_declares::declared::{Declared, Routine};
use vl_repeats::repeats::find_repeats;
use vl_scopes::scope::Scope;

/// A function: the number of the scope in which it stands, and what it is.
#[derive(Clone, Copy)]
pub struct Callable<'s, 'a> {
    pub scope: usize,
    pub routine: &'s Routine<'a>,
}

/// The functions of all scopes.
pub fn callables<'s, 'a>(
    alloc: Global,
    scopes: &'s [Scope<'a>],
) -> Result<Vec<Callable<'s, 'a>>, AllocError>
    ensures { let ss = plain_scopes scopes.now in
        IfOk result (λ cs. map (callable_by (scope_at ss)) cs.items ≡ design.callables ss) }
{
    let mut callables = Vec::new(alloc);
    for k in 0..scopes.len() {
        push_all(alloc, k, scopes[k].declared.as_slice(), &mut callables)?;
    }
    Ok(callables)
}

// Appends those of one scope.
fn push_all<'s, 'a>(
    alloc: Global,
    scope: usize,
    declared: &'s [Declared<'a>],
    callables: &mut Vec<Callable<'s, 'a>>,
) -> Result<(), AllocError>
    ensures { let ds = counted_behind [] (all_plain declared.now) in
        OnOk result (AddsCallables scope ds callables.old.items callables.new.items) }
{
    let repeats = find_repeats(alloc, declared)?;
    push_counted(scope, repeats.counted.as_slice(), declared, callables)
}

// Appends those whose declaration counts.
fn push_counted<'s, 'a>(
    scope: usize,
    counted: &[bool],
    declared: &'s [Declared<'a>],
    callables: &mut Vec<Callable<'s, 'a>>,
) -> Result<(), AllocError>
    requires { length counted.now ≡ length declared.now }
    ensures { let ds = picked counted.now (all_plain declared.now) in
        OnOk result (AddsCallables scope ds callables.old.items callables.new.items) }
{
    for k in 0..declared.len() {
        push_if(scope, counted[k], &declared[k], callables)?;
    }
    Ok(())
}

// Appends the function of a declaration that counts, if it declares one.
fn push_if<'s, 'a>(
    scope: usize,
    counts: bool,
    declared: &'s Declared<'a>,
    callables: &mut Vec<Callable<'s, 'a>>,
) -> Result<(), AllocError>
    ensures { let ds = one_if counts (plain declared.now) in
        OnOk result (AddsCallables scope ds callables.old.items callables.new.items) }
{
    if !counts {
        return Ok(());
    }
    match declared {
        Declared::Routine(routine) => push(callables, Callable { scope, routine }),
        Declared::Memory(_, _) => Ok(()),
        Declared::Port(_, _, _) => Ok(()),
        Declared::Object(_, _) => Ok(()),
        Declared::Parameter(_, _) => Ok(()),
        Declared::Genvar(_) => Ok(()),
        Declared::Inner(_) => Ok(()),
    }
}

fn push<'s, 'a>(
    callables: &mut Vec<Callable<'s, 'a>>,
    callable: Callable<'s, 'a>,
) -> Result<(), AllocError>
    ensures { let c = callable.entry in
        OnOk result (callables.new.items ≡ callables.old.items ++ c ∷ []) }
{
    match callables.push(callable) {
        Ok(()) => Ok(()),
        Err(_) => Err(AllocError),
    }
}
