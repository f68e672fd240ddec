//! Items that hold no others and make no instance.

ghost use Rattle.std.specs.Prelude.{◌≡◌, OnOk, map};
ghost use Rattle.std.specs.Option.{option_map};
ghost use Rattle.vl_tree.specs.SyntaxView as view;
ghost use Rattle.vl_value.specs.Order.{least};
ghost use Rattle.vl_found.specs.View.{found};
ghost use Rattle.vl_design.specs.Scopes as scopes;
ghost use Rattle.vl_parameters.specs.Plain.{plain_given};
ghost use Rattle.vl_opening.specs.Passing.{PassesPlain};

use crate::walk::Walk;
use std::alloc::{AllocError, Global};
use vl_declares::item::declare_item;
use vl_found::Found;
use vl_frames::frames::Frames;
use vl_parameters::worth::Given;
use vl_tree::fault::FaultKind;
use vl_tree::item::Item;

/// Passes an item that holds no others and makes no instance, in a block or not: what it needs is told, and its parameters are in sight behind
/// it. What it declares was told where its scope was opened.
pub fn pass_plain(
    alloc: Global,
    walk: &mut Walk<'_>,
    frames: &mut Frames,
    given: &[Given<'_>],
    in_block: bool,
    item: &Item,
) -> Result<(), AllocError>
    ensures { let gs = map plain_given given.now in let i = view.item item.now in
        OnOk result (PassesPlain gs in_block i frames.old frames.new walk.old walk.new) }
{
    let mut declared = Vec::new(alloc);
    walk.progress.fail(misplaced(in_block, item));
    let fault = declare_item(alloc, frames, given, item, &mut declared)?;
    walk.progress.fail(fault);
    Ok(())
}

// `input`, `output` and `parameter` stand in no block.
fn misplaced(in_block: bool, item: &Item) -> Option<Found>
    ensures { let i = view.item item.now in
        option_map found result ≡ least (scopes.misplaced in_block i) }
{
    if !in_block {
        return None;
    }
    let place = match item {
        Item::Directed(directed, _) => directed.place,
        Item::Parameter(place, false, _, _, _) => *place,
        _ => return None,
    };
    Some(Found {
        place,
        kind: FaultKind::Misplaced,
    })
}
