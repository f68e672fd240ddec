//! What the items of a scope declare.

ghost use Rattle.std.specs.Prelude.{◌≡◌, OnOk, map};
ghost use Rattle.vl_tree.specs.SyntaxView as view;
ghost use Rattle.vl_design.specs.Generate.{behind, is_if};
ghost use Rattle.vl_design.specs.Limits.{limits};
ghost use Rattle.vl_design.specs.Scopes as scopes;
ghost use Rattle.vl_views.specs.Blocks.{items_of};
ghost use Rattle.vl_frames.specs.Marks.{around};
ghost use Rattle.vl_parameters.specs.Plain.{plain_given};
ghost use Rattle.vl_members.specs.Members.{DeclaresBy, all_behind};

use crate::label::declare_label;
use crate::turn::declare_loop;
use std::alloc::{AllocError, Global};
use vl_declares::declared::Declared;
use vl_declares::item::declare_item;
use vl_frames::frames::Frames;
use vl_parameters::worth::Given;
use vl_tree::item::{GenerateBlock, Item};
use vl_turns::condition;

/// Declares what the items of a scope declare, in order of text. What is given to parameters is given to those that aren't local.
#[cycle(declare)]
pub fn declare_items<'a>(
    alloc: Global,
    frames: &mut Frames,
    given: &[Given<'_>],
    items: &'a [Item],
    declared: &mut Vec<Declared<'a>>,
) -> Result<(), AllocError>
    ensures { let gs = map plain_given given.now in let is = items_of items.now in let a = around frames.old in
        OnOk result (DeclaresBy (scopes.declared limits gs a is) (all_behind gs a is) frames.old frames.new declared.old.items declared.new.items) }
{
    for item in items {
        declare_by(alloc, frames, given, item, declared)?;
    }
    Ok(())
}

/// Declares what an item of a scope declares.
#[cycle(declare)]
pub fn declare_by<'a>(
    alloc: Global,
    frames: &mut Frames,
    given: &[Given<'_>],
    item: &'a Item,
    declared: &mut Vec<Declared<'a>>,
) -> Result<(), AllocError>
    ensures { let gs = map plain_given given.now in let i = view.item item.now in let a = around frames.old in
        OnOk result (DeclaresBy (scopes.declared_by limits gs a i) (behind gs a i) frames.old frames.new declared.old.items declared.new.items) }
{
    match item {
        Item::Region(_, items) => declare_items(alloc, frames, given, items.as_slice(), declared),
        Item::GenerateLoop(_, header, block) => {
            declare_loop(alloc, frames, header, block, declared)
        }
        Item::GenerateIf(branches, last) => {
            let all = branches.as_slice();
            for branch in all {
                let truth = condition(alloc, frames, &branch.condition)?;
                match truth.holds {
                    None => return Ok(()),
                    Some(false) => {}
                    Some(true) => match &branch.block {
                        GenerateBlock::Single(inner) => {
                            if is_generate_if(inner.get()) {
                                return declare_by(alloc, frames, given, inner.get(), declared);
                            }
                            return Ok(());
                        }
                        GenerateBlock::Several(_, _, _) => {
                            return declare_label(&branch.block, declared);
                        }
                    },
                }
            }
            match last {
                Some(block) => match block {
                    GenerateBlock::Single(inner) => {
                        if is_generate_if(inner.get()) {
                            return declare_by(alloc, frames, given, inner.get(), declared);
                        }
                        Ok(())
                    }
                    GenerateBlock::Several(_, _, _) => declare_label(block, declared),
                },
                None => Ok(()),
            }
        }
        _ => {
            declare_item(alloc, frames, given, item, declared)?;
            Ok(())
        }
    }
}

/// Whether an item is a generate `if`.
pub fn is_generate_if(item: &Item) -> bool
    ensures { result ≡ is_if (view.item item.now) }
{
    match item {
        Item::GenerateIf(_, _) => true,
        _ => false,
    }
}
