//! The scope of a block.

ghost use Rattle.std.specs.Prelude.{IfOk};
ghost use Rattle.std.specs.Option.{option_map};
ghost use Rattle.vl_views.specs.Blocks.{block_of};
ghost use Rattle.vl_scopes.specs.Plain.{plain_step, plain_turn};
ghost use Rattle.vl_opening.specs.Entering.{EntersBody};

use crate::walk::Walk;
use std::alloc::{AllocError, Global};
use vl_frames::frames::Frames;
use vl_members::opening::open_block;
use vl_scopes::scope::{Origin, Scope, Step, Turn};
use vl_tree::item::{GenerateBlock, Item};

/// How a block stands in its design: in the scope of a number, under a step, in a turn of a loop where that has one.
#[derive(Clone, Copy)]
pub struct BlockSite<'a> {
    pub within: u32,
    pub step: Step<'a>,
    pub turn: Option<Turn<'a>>,
}

/// Opens the scope of a block, whose names are in sight behind that; its number, or none behind the end.
pub fn enter_block<'a>(
    alloc: Global,
    walk: &mut Walk<'a>,
    frames: &mut Frames,
    site: BlockSite<'a>,
    block: &'a GenerateBlock<Item>,
) -> Result<Option<u32>, AllocError>
    ensures { let b = block_of block.now in
        IfOk result (λ n. EntersBody site.entry b frames.old frames.new walk.old walk.new n) }
{
    let declared = open_block(alloc, frames, block)?;
    let scope = Scope {
        origin: Origin::Block(block),
        step: Some(site.step),
        within: Some(site.within),
        turn: site.turn,
        declared,
    };
    let number = walk.open(scope)?;
    Ok(number)
}
