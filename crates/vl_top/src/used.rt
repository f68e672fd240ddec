//! The names of modules that others instantiate.

ghost use Rattle.std.specs.Prelude.{◌≡◌, map, IfOk, OnOk, nat_eq};
ghost use Rattle.std.specs.Cmp.Lexicographic.{pointwise};
ghost use Rattle.indexmap.specs.IndexMap.{get};
ghost use Rattle.vl_tree.specs.SyntaxView as view;
ghost use Rattle.vl_design.specs.Walk as walk;
ghost use Rattle.vl_top.specs.Names.{Gathers, HoldsUsed, tree_of};
ghost use Rattle.vl_views.specs.Blocks.{items_of};

use crate::first::{copied, note};
use dt_core::text::Text;
use indexmap::IndexMap;
use std::alloc::{AllocError, Global};
use vl_tree::item::{GenerateBlock, Item, Module};

/// The names of modules that some modules instantiate, in any branch or block.
pub fn used_names(alloc: Global, modules: &[&Module]) -> Result<IndexMap<Text, u32>, AllocError>
    ensures { let src = map tree_of modules.now in
        IfOk result (λ m. HoldsUsed (get (pointwise nat_eq) m) src) }
{
    let mut used = IndexMap::new(alloc);
    for one in modules {
        gather_items(alloc, &mut used, one.items.as_slice())?;
    }
    Ok(used)
}

#[cycle(gather)]
fn gather_items(
    alloc: Global,
    used: &mut IndexMap<Text, u32>,
    items: &[Item],
) -> Result<(), AllocError>
    ensures { let all = items_of items.now in
        OnOk result (Gathers (get (pointwise nat_eq) used.old) (get (pointwise nat_eq) used.new) (λ x. walk.some_instantiates x all)) }
{
    for item in items {
        gather(alloc, used, item)?;
    }
    Ok(())
}

// The names that an item instantiates.
#[cycle(gather)]
fn gather(alloc: Global, used: &mut IndexMap<Text, u32>, item: &Item) -> Result<(), AllocError>
    ensures { let i = view.item item.now in
        OnOk result (Gathers (get (pointwise nat_eq) used.old) (get (pointwise nat_eq) used.new) (λ x. walk.instantiates x i)) }
{
    match item {
        Item::Instances(name, _, _) => {
            let name = copied(alloc, &name.text)?;
            note(used, name)
        }
        Item::Region(_, items) => gather_items(alloc, used, items.as_slice()),
        Item::GenerateLoop(_, _, block) => match block {
            GenerateBlock::Single(inner) => gather(alloc, used, inner.get()),
            GenerateBlock::Several(_, _, items) => gather_items(alloc, used, items.as_slice()),
        },
        Item::GenerateIf(branches, last) => {
            let all = branches.as_slice();
            for branch in all {
                match &branch.block {
                    GenerateBlock::Single(inner) => gather(alloc, used, inner.get())?,
                    GenerateBlock::Several(_, _, items) => {
                        gather_items(alloc, used, items.as_slice())?
                    }
                }
            }
            match last {
                Some(block) => match block {
                    GenerateBlock::Single(inner) => gather(alloc, used, inner.get()),
                    GenerateBlock::Several(_, _, items) => {
                        gather_items(alloc, used, items.as_slice())
                    }
                },
                None => Ok(()),
            }
        }
        _ => Ok(()),
    }
}
