//! Names behind `posedge` in the items of a scope.
//!
//! Below: `vl_design` (which names these are), `vl_tree`, `vl_views`. Above: what tells the clock names of a design's top.
//! Promise: `clock_names` lists the names behind `posedge`; what they stand for are the clocks of a scope, as `vl_design` says.
//! The time is linear.
//! Not said: that memory is enough.
#![tactic(auto)]

ghost use Rattle.std.specs.Prelude.{◌≡◌, IfOk};
ghost use Rattle.vl_value.specs.Constant.{Sight};
ghost use Rattle.vl_design.specs.Clocks.{clocked_in};
ghost use Rattle.vl_design.specs.LoopVariables.{paths_in};
ghost use Rattle.vl_views.specs.Blocks.{items_of};
ghost use Rattle.vl_clocks.specs.Names.{texts};

pub mod edge;
pub mod name;

use crate::edge::gather;
use std::alloc::{AllocError, Global};
use vl_tree::expression::Name;
use vl_tree::item::Item;

/// The names behind `posedge` in the items of a scope.
pub fn clock_names<'a>(alloc: Global, items: &'a [Item]) -> Result<Vec<&'a Name>, AllocError>
    ensures { let is = items_of items.now in
        IfOk result (λ xs. (s : Sight) → paths_in s (texts xs.items) ≡ clocked_in s is) }
{
    let mut names = Vec::new(alloc);
    gather(items, &mut names)?;
    Ok(names)
}
