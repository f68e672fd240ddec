//! The variables of `for` statements that stand in the items of a scope.
//!
//! Below: `vl_design` (which names these are), `vl_tree`, `vl_views`. Above: what tells a design's loop variables from its
//! signals.
//! Promise: `loops_of` lists the names of loops with the function in whose body they stand; what these names stand for there
//! are the loop variables of the scope, as `vl_design` says.
//! The time is linear.
//! Not said: that memory is enough.
#![tactic(auto)]

ghost use Rattle.std.specs.Prelude.{◌≡◌, map, IfOk};
ghost use Rattle.vl_design.specs.Scopes.{Scope};
ghost use Rattle.vl_design.specs.Lists.{each_of};
ghost use Rattle.vl_design.specs.LoopVariables.{looped_in};
ghost use Rattle.vl_views.specs.Blocks.{items_of};
ghost use Rattle.vl_loops.specs.Loops.{plain_loops, looped_by_loops};

pub mod item;
pub mod statement;

use crate::item::{Loops, gather};
use std::alloc::{AllocError, Global};
use vl_tree::item::Item;

/// The loops in the items of a scope.
pub fn loops_of<'a>(alloc: Global, items: &'a [Item]) -> Result<Vec<Loops<'a>>, AllocError>
    ensures { let is = items_of items.now in
        IfOk result (λ ls. (s : Scope) → each_of (looped_by_loops s) (map plain_loops ls.items) ≡ looped_in s is) }
{
    let mut loops = Vec::new(alloc);
    gather(alloc, items, &mut loops)?;
    Ok(loops)
}
