//! The parts of an item that a walk goes through.

ghost use Rattle.vl_tree.specs.Syntax as t;
ghost use Rattle.vl_tree.specs.SyntaxView as view;
ghost use Rattle.vl_views.specs.Blocks.{block_of};
ghost use Rattle.vl_generate.specs.Forms.{HasForm, HasInner};

use dt_core::place::Place;
use vl_tree::expression::Name;
use vl_tree::item::{Binds, GenerateBlock, GenerateBranch, Instance, Item};
use vl_tree::statement::Loop;

/// An item by what a walk has to go into.
#[derive(Clone, Copy)]
pub enum Form<'a> {
    /// It holds no others, and makes no instance.
    Plain,
    /// The module's name, what stands behind it, and the instances.
    Instances(&'a Name, &'a Option<Option<Binds>>, &'a [Instance]),
    /// `generate` .. `endgenerate`
    Region(&'a [Item]),
    /// The place of `for`, its header, and what it repeats.
    Repeated(Place, &'a Loop, &'a GenerateBlock<Item>),
    /// The branches of an `if`, and its last block.
    Chosen(&'a [GenerateBranch<Item>], &'a Option<GenerateBlock<Item>>),
}

/// The form of an item.
pub fn form_of<'a>(item: &'a Item) -> Form<'a>
    ensures { HasForm (view.item item.now) result }
{
    match item {
        Item::Instances(name, values, all) => Form::Instances(name, values, all.as_slice()),
        Item::Region(_, items) => Form::Region(items.as_slice()),
        Item::GenerateLoop(place, header, block) => Form::Repeated(*place, header, block),
        Item::GenerateIf(branches, last) => Form::Chosen(branches.as_slice(), last),
        _ => Form::Plain,
    }
}

/// The generate `if` that stands directly as a block: it belongs to the construct of that block, and makes no scope (12.4.3).
pub fn inner_if<'a>(block: &'a GenerateBlock<Item>) -> Option<&'a Item>
    ensures { HasInner (block_of block.now) result }
{
    match block {
        GenerateBlock::Single(inner) => if_only(inner.get()),
        GenerateBlock::Several(_, _, _) => None,
    }
}

// An item, where it is a generate `if`.
fn if_only<'a>(item: &'a Item) -> Option<&'a Item>
    ensures { HasInner (t.single (view.item item.now)) result }
{
    match item {
        Item::GenerateIf(_, _) => Some(item),
        _ => None,
    }
}
