//! The label of a block that makes a scope.

ghost use Rattle.std.specs.Prelude.{◌≡◌, ◌++◌, OnOk};
ghost use Rattle.std.specs.Option.{option_map};
ghost use Rattle.vl_design.specs.Generate as generate;
ghost use Rattle.vl_views.specs.Blocks.{block_of};
ghost use Rattle.vl_declares.specs.Plain.{all_plain};
ghost use Rattle.vl_members.specs.Members.{name_tree};

use std::alloc::AllocError;
use vl_declares::declared::{Declared, push};
use vl_tree::expression::Name;
use vl_tree::item::{GenerateBlock, Item};

/// The label of a block, if it has one.
pub fn label_of<'a>(block: &'a GenerateBlock<Item>) -> Option<&'a Name>
    ensures { option_map name_tree result ≡ generate.label_of (block_of block.now) }
{
    match block {
        GenerateBlock::Single(_) => None,
        GenerateBlock::Several(_, label, _) => label.as_ref(),
    }
}

/// Declares the label of a block, if it has one.
pub fn declare_label<'a>(
    block: &'a GenerateBlock<Item>,
    declared: &mut Vec<Declared<'a>>,
) -> Result<(), AllocError>
    ensures { OnOk result (all_plain declared.new.items ≡ all_plain declared.old.items ++ generate.label_declared (block_of block.now)) }
{
    match block {
        GenerateBlock::Single(_) => Ok(()),
        GenerateBlock::Several(_, label, _) => match label {
            Some(name) => push(declared, Declared::Inner(name)),
            None => Ok(()),
        },
    }
}
