//! The scopes of a source: phase 4 whole.
//!
//! Below: `vl_walk` (the walk from the top down), `vl_top` (which module is the top, and second modules of a name), `vl_scopes` (scopes),
//! `vl_design` (what a source is as a design). Above: what looks at all scopes of a design.
//! Promise: `elaborate` gives exactly the instances and generate scopes that `vl_design` says a source has (IEEE 1364-2005, 12.1 to 12.5), in
//! preorder, and the least fault of phase 4, if there is one.
//! Not said: that memory is enough.
#![tactic(auto)]

ghost use Rattle.std.specs.Prelude.{◌≡◌, IfOk};
ghost use Rattle.vl_tree.specs.SyntaxView as view;
ghost use Rattle.vl_tree.specs.declared.fault.FaultKind.TheVariants.{NoTop};
ghost use Rattle.vl_value.specs.Order.{at};
ghost use Rattle.vl_design.specs.Walk.{first_token};
ghost use Rattle.vl_found.specs.View.{found};
ghost use Rattle.vl_top.specs.Names.{asked};
ghost use Rattle.vl_elaborate.specs.Elaborates.{HasHierarchyFault, HasScopes, IsBuilt};

use dt_core::text::Text;
use std::alloc::{AllocError, Global};
use vl_found::{Found, lesser};
use vl_opening::walk::Walk;
use vl_scopes::tree::Tree;
use vl_top::{duplicate_module, top_of};
use vl_tree::fault::FaultKind;
use vl_tree::item::{Module, Source};
use vl_walk::modules::Modules;
use vl_walk::top::walk_top;

/// The scopes of a source, none where it has no top, and the least fault of phase 4.
#[derive(Drop)]
pub struct Elaborated<'a> {
    pub tree: Tree<'a>,
    pub fault: Option<Found>,
}

/// Elaborates a source from the module of the name that is asked for, or from the one that no module instantiates.
pub fn elaborate<'a>(
    alloc: Global,
    source: &'a Source,
    top: Option<&Text>,
) -> Result<Elaborated<'a>, AllocError>
    ensures scopes { let src = view.source source.now in IfOk result (λ e. HasScopes src (asked top.entry) e.tree) }
    ensures fault { let src = view.source source.now in IfOk result (λ e. HasHierarchyFault src (asked top.entry) e.fault) }
{
    let duplicate = duplicate_module(alloc, source)?;
    match top_of(alloc, source, top)? {
        Some(parent) => {
            let built = build(alloc, source, parent)?;
            Ok(Elaborated {
                tree: Tree {
                    scopes: built.scopes,
                },
                fault: lesser(duplicate, built.progress.fault),
            })
        }
        None => Ok(Elaborated {
            tree: Tree {
                scopes: Vec::new(alloc),
            },
            fault: lesser(duplicate, Some(no_top(source))),
        }),
    }
}

// Builds the scopes of a top.
fn build<'a>(alloc: Global, source: &'a Source, parent: &'a Module) -> Result<Walk<'a>, AllocError>
    ensures { let src = view.source source.now in let m = view.module_tree parent.now in
        IfOk result (λ w. IsBuilt src m w) }
{
    let modules = Modules::new(alloc, source)?;
    let mut walk = Walk::new(alloc, parent.name.place);
    walk_top(&modules, &mut walk, parent)?;
    Ok(walk)
}

// NoTop at the first token of a source.
fn no_top(source: &Source) -> Found
    ensures { found result ≡ at (first_token (view.source source.now)) NoTop }
{
    Found {
        place: vl_top::first_token(source),
        kind: FaultKind::NoTop,
    }
}
