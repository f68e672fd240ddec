//! Which block of a generate `if` is taken.

ghost use Rattle.std.specs.Prelude.{IfOk};
ghost use Rattle.vl_views.specs.Blocks.{branches_of, else_of};
ghost use Rattle.vl_constants.specs.Needed.{constants_of};
ghost use Rattle.vl_generate.specs.Choices.{HasChoice};

use std::alloc::{AllocError, Global};
use vl_found::Found;
use vl_frames::frames::Frames;
use vl_tree::item::{GenerateBlock, GenerateBranch, Item};
use vl_turns::condition;

/// The block that is taken, if one is, or the fault of the condition for which none is.
#[derive(Clone, Copy)]
pub struct Choice<'a> {
    pub block: Option<&'a GenerateBlock<Item>>,
    pub fault: Option<Found>,
}

/// The block of the first branch whose condition isn't 0, or else the last block; none where a condition before that is no constant.
pub fn choose<'a>(
    alloc: Global,
    frames: &Frames,
    branches: &'a [GenerateBranch<Item>],
    last: &'a Option<GenerateBlock<Item>>,
) -> Result<Choice<'a>, AllocError>
    ensures { let bs = branches_of branches.now in let e = else_of last.now in
        IfOk result (λ c. HasChoice (constants_of frames.now) bs e c.block c.fault) }
{
    for branch in branches {
        let truth = condition(alloc, frames, &branch.condition)?;
        match truth.holds {
            None => {
                return Ok(Choice {
                    block: None,
                    fault: truth.fault,
                });
            }
            Some(true) => {
                return Ok(Choice {
                    block: Some(&branch.block),
                    fault: None,
                });
            }
            Some(false) => {}
        }
    }
    Ok(Choice {
        block: last.as_ref(),
        fault: None,
    })
}
