//! The step of a block's path.

ghost use Rattle.std.specs.Prelude.{◌≡◌};
ghost use Rattle.std.specs.Option.{option_map};
ghost use Rattle.vl_design.specs.Generate as generate;
ghost use Rattle.vl_views.specs.Blocks.{block_of};
ghost use Rattle.vl_scopes.specs.Plain.{plain_step};

use vl_members::label::label_of;
use vl_scopes::scope::Step;
use vl_tree::item::{GenerateBlock, Item};

/// The step of the block of the construct of a number, in the turn of a number where that is a loop (IEEE 1364-2005, 12.4.3).
pub fn block_step<'a>(n: u32, block: &'a GenerateBlock<Item>, turn: Option<u32>) -> Step<'a>
    ensures { let b = block_of block.now in
        plain_step result ≡ generate.step_of n (generate.label_of b) (option_map generate.turn_number turn) }
{
    match (label_of(block), turn) {
        (None, _) => Step::Unnamed(n, turn),
        (Some(label), None) => Step::Named(label),
        (Some(label), Some(number)) => Step::Turn(label, number),
    }
}
