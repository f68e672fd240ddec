//! The label of a loop, which is declared where the loop has a turn.

ghost use Rattle.std.specs.Prelude.{◌≡◌, IfOk, OnOk};
ghost use Rattle.vl_tree.specs.SyntaxView as view;
ghost use Rattle.vl_views.specs.Blocks.{block_of};
ghost use Rattle.vl_frames.specs.Changes.{Are};
ghost use Rattle.vl_frames.specs.Marks.{around, plain_worth};
ghost use Rattle.vl_members.specs.Members.{DeclaresBy, has_turn_in, holds_at, loop_members};

use crate::label::declare_label;
use std::alloc::{AllocError, Global};
use vl_declares::declared::Declared;
use vl_frames::frames::Frames;
use vl_frames::mark::Worth;
use vl_tree::item::{GenerateBlock, Item};
use vl_tree::statement::Loop;
use vl_turns::{condition, enter_turn, genvar_number, is_genvar_loop};

/// Declares the label of a loop's block, where the loop has a turn.
pub fn declare_loop<'a>(
    alloc: Global,
    frames: &mut Frames,
    header: &Loop,
    block: &'a GenerateBlock<Item>,
    declared: &mut Vec<Declared<'a>>,
) -> Result<(), AllocError>
    ensures { let l = view.loop header.now in let b = block_of block.now in
        OnOk result (DeclaresBy (loop_members (around frames.old) l b) (around frames.old) frames.old frames.new declared.old.items declared.new.items) }
{
    if !is_genvar_loop(frames, header) {
        return Ok(());
    }
    if has_turn(alloc, frames, header)? {
        declare_label(block, declared)?;
    }
    Ok(())
}

// Whether a loop over a genvar has a turn.
fn has_turn(alloc: Global, frames: &mut Frames, header: &Loop) -> Result<bool, AllocError>
    ensures turn { let l = view.loop header.now in IfOk result (λ b. b ≡ has_turn_in (around frames.old) l) }
    ensures frames { OnOk result (Are frames.new frames.old.inner frames.old.outer.items) }
{
    let number = genvar_number(alloc, frames, &header.first)?;
    match number.worth {
        Some(worth) => {
            let holds = first_holds(alloc, frames, header, worth)?;
            Ok(holds)
        }
        None => Ok(false),
    }
}

// Whether the condition of a loop holds where its genvar has a worth.
fn first_holds(
    alloc: Global,
    frames: &mut Frames,
    header: &Loop,
    worth: Worth,
) -> Result<bool, AllocError>
    ensures holds { let l = view.loop header.now in IfOk result (λ b. b ≡ holds_at (around frames.old) l (plain_worth worth)) }
    ensures frames { OnOk result (Are frames.new frames.old.inner frames.old.outer.items) }
{
    enter_turn(alloc, frames, &header.variable, worth)?;
    let truth = condition(alloc, frames, &header.condition)?;
    frames.leave();
    match truth.holds {
        Some(holds) => Ok(holds),
        None => Ok(false),
    }
}
