//! Second modules of a name, and where a source begins.

ghost use Rattle.std.specs.Prelude.{◌≡◌, [], IfOk, map};
ghost use Rattle.std.specs.Option.{option_map};
ghost use Rattle.vl_tree.specs.SyntaxView as view;
ghost use Rattle.vl_value.specs.Order.{least};
ghost use Rattle.vl_found.specs.View.{found};
ghost use Rattle.vl_design.specs.Walk as walk;
ghost use Rattle.vl_top.specs.Names.{duplicate_here};

use crate::first::{copied, has_name, note};
use dt_core::place::Place;
use indexmap::IndexMap;
use std::alloc::{AllocError, Global};
use vl_found::{Found, lesser};
use vl_tree::expression::Name;
use vl_tree::fault::FaultKind;
use vl_tree::item::{Module, Source};

/// The least fault of modules whose name a module before them has.
pub fn duplicate_module(alloc: Global, source: &Source) -> Result<Option<Found>, AllocError>
    ensures { let src = view.source source.now in
        IfOk result (λ f. option_map found f ≡ least (walk.duplicate_modules [] src)) }
{
    let fault = duplicate_in(alloc, source.modules.as_slice())?;
    Ok(fault)
}

fn duplicate_in(alloc: Global, modules: &[Module]) -> Result<Option<Found>, AllocError>
    ensures { let src = map view.module_tree modules.now in
        IfOk result (λ f. option_map found f ≡ least (walk.duplicate_modules [] src)) }
{
    let mut names = IndexMap::new(alloc);
    let mut fault = None;
    for one in modules {
        let is_known = has_name(&names, &one.name.text);
        fault = lesser(fault, duplicate(is_known, &one.name));
        let name = copied(alloc, &one.name.text)?;
        note(&mut names, name)?;
    }
    Ok(fault)
}

// DuplicateModule at a module's name, where it is known.
fn duplicate(is_known: bool, name: &Name) -> Option<Found>
    ensures { let x = view.name name.now in
        option_map found result ≡ least (duplicate_here is_known x) }
{
    if !is_known {
        return None;
    }
    Some(Found {
        place: name.place,
        kind: FaultKind::DuplicateModule,
    })
}

/// The place of a source's first token, which is that of its first module.
pub fn first_token(source: &Source) -> Place
    ensures { view.place result ≡ walk.first_token (view.source source.now) }
{
    let line = match source.modules.as_slice().first() {
        Some(one) => one.place.line,
        None => 1,
    };
    Place { token: 0, line }
}
