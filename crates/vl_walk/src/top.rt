//! The walk from the top of a source.

ghost use Rattle.std.specs.Prelude.{OnOk};
ghost use Rattle.vl_tree.specs.SyntaxView as view;
ghost use Rattle.vl_design.specs.Limits.{limits};
ghost use Rattle.vl_design.specs.Scopes.{all_requests};
ghost use Rattle.vl_opening.specs.Walking.{Walks};
ghost use Rattle.vl_walk.specs.Library.{Finds, source_of};

use crate::modules::Modules;
use crate::walking::walk_module;
use std::alloc::AllocError;
use vl_design::limits::MAX_INSTANCE_DEPTH;
use vl_opening::instance::Site;
use vl_opening::walk::Walk;
use vl_scopes::scope::Origin;
use vl_tree::item::Module;

/// Walks through all that stands below the top of a source, and that itself.
pub fn walk_top<'a>(
    modules: &Modules<'a>,
    walk: &mut Walk<'a>,
    parent: &'a Module,
) -> Result<(), AllocError>
    requires { Finds modules.now }
    ensures { let m = view.module_tree parent.now in
        OnOk result (Walks (all_requests limits (source_of modules.now) m) walk.old walk.new) }
{
    let site = Site {
        place: parent.name.place,
        origin: Origin::Top(parent),
        step: None,
        within: None,
    };
    walk_module(modules, walk, MAX_INSTANCE_DEPTH, site, &[], parent)?;
    Ok(())
}
