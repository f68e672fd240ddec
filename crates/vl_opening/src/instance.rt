//! The scope of an instance, and instances that have none.

ghost use Rattle.std.specs.Prelude.{◌∷◌, [], IfOk, map};
ghost use Rattle.vl_tree.specs.SyntaxView as view;
ghost use Rattle.vl_tree.specs.declared.fault.FaultKind.TheVariants as k;
ghost use Rattle.vl_value.specs.Order.{at};
ghost use Rattle.vl_design.specs.Scopes.{instance_begins, fails};
ghost use Rattle.vl_parameters.specs.Plain.{plain_given};
ghost use Rattle.vl_opening.specs.Entering.{EntersInstance, begins};
ghost use Rattle.vl_opening.specs.Walking.{Walks};

use crate::walk::Walk;
use dt_core::place::Place;
use std::alloc::{AllocError, Global};
use vl_found::Found;
use vl_frames::frames::Frames;
use vl_members::opening::{Opened, open_module};
use vl_parameters::worth::Given;
use vl_scopes::scope::{Origin, Scope, Step};
use vl_tokens::item::items_tokens;
use vl_tree::expression::Name;
use vl_tree::fault::FaultKind;
use vl_tree::item::{Instance, Module};

/// How an instance stands in its design: where its name stands, of what it is, the step of its path, and the scope in which it stands.
#[derive(Clone, Copy)]
pub struct Site<'a> {
    pub place: Place,
    pub origin: Origin<'a>,
    pub step: Option<Step<'a>>,
    pub within: Option<u32>,
}

/// The names in sight at the entry of a module, and the number of its scope.
#[derive(Drop)]
pub struct Entered {
    pub frames: Frames,
    pub scope: u32,
}

/// Begins an instance of a module, and opens its scope; none behind the end. What is needed in its header is told.
pub fn enter_module<'a>(
    alloc: Global,
    walk: &mut Walk<'a>,
    site: Site<'a>,
    given: &[Given<'_>],
    parent: &'a Module,
) -> Result<Option<Entered>, AllocError>
    ensures { let gs = map plain_given given.now in let m = view.module_tree parent.now in
        IfOk result (λ e. EntersInstance site.entry gs m walk.old walk.new e) }
{
    walk.progress.begin_instance(site.place);
    let tokens = items_tokens(parent.items.as_slice());
    walk.progress.expand(tokens);
    if walk.progress.ended {
        return Ok(None);
    }
    let Opened {
        frames,
        declared,
        fault,
    } = open_module(alloc, given, parent)?;
    let scope = Scope {
        origin: site.origin,
        step: site.step,
        within: site.within,
        turn: None,
        declared,
    };
    let number = walk.open(scope)?;
    match number {
        Some(scope) => {
            walk.progress.fail(fault);
            Ok(Some(Entered { frames, scope }))
        }
        None => Ok(None),
    }
}

/// An instance that lies too deep, whose name stands there: it counts, and has nothing in it.
pub fn refuse_depth(walk: &mut Walk<'_>, place: Place)
    ensures { let p = view.place place in
        Walks (fails (at p k.TooDeep) ∷ (instance_begins p ∷ [])) walk.old walk.new }
{
    fail_at(walk, place, FaultKind::TooDeep);
    walk.progress.begin_instance(place);
}

/// Instances of a name that is no module's: they count, and have nothing in them.
pub fn refuse_name(walk: &mut Walk<'_>, name: &Name, instances: &[Instance])
    ensures { let x = view.name name.now in let is = map view.instance instances.now in
        Walks (fails (at x.place k.UnknownModule) ∷ map begins is) walk.old walk.new }
{
    fail_at(walk, name.place, FaultKind::UnknownModule);
    begin_all(walk, instances);
}

fn begin_all(walk: &mut Walk<'_>, instances: &[Instance])
    ensures { let is = map view.instance instances.now in
        Walks (map begins is) walk.old walk.new }
{
    for instance in instances {
        walk.progress.begin_instance(instance.name.place);
    }
}

/// A fault of a kind at a place.
pub fn fail_at(walk: &mut Walk<'_>, place: Place, kind: FaultKind)
    ensures { let f = at (view.place place) kind in
        Walks (fails f ∷ []) walk.old walk.new }
{
    walk.progress.fail(Some(Found { place, kind }));
}
