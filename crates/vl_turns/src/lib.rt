//! What the turns of a generate loop rest on: whether it has one genvar, which number that takes, whether a turn is made,
//! and what is in sight in a turn; and which branch of a generate `if` is taken.
//!
//! Below: `vl_constants` (expressions that have to be constant), `vl_frames` (names in sight), `vl_design` (what a turn is).
//! Above: what builds a design.
//! Promise: `genvar_number` is the number that a genvar takes from an expression, `condition` whether a condition holds, each with
//! the fault of an expression that is no constant; `enter_turn` brings the genvar in sight with its number.
//! Not said: that memory is enough.
#![tactic(auto)]

ghost use Rattle.std.specs.Prelude.{◌≡◌, ◌&&◌, IfOk, OnOk};
ghost use Rattle.std.specs.Option.{option_map};
ghost use Rattle.vl_tree.specs.SyntaxView as view;
ghost use Rattle.vl_design.specs.Generate.{has_one_genvar, in_turn};
ghost use Rattle.vl_frames.specs.Marks.{around};
ghost use Rattle.vl_constants.specs.Needed.{constants_of};
ghost use Rattle.vl_turns.specs.Turns.{EntersTurn, HasNumber, HasTruth, genvar_worth, truth_in};
ghost use Rattle.vl_constants.specs.Needed.{meant_in};
ghost use Rattle.vl_frames.specs.Marks.{plain_worth};

use std::alloc::{AllocError, Global};
use vl_constants::value::{Evaluated, assigned, evaluate, holds};
use vl_found::Found;
use vl_frames::frames::Frames;
use vl_frames::mark::Worth;
use vl_tree::expression::{Expr, Name};
use vl_tree::statement::Loop;
use vl_width::known::Known;
use vl_width::number::Constant;

/// The worth that a genvar takes, or none and the fault for which it takes none.
#[derive(Clone, Copy, Debug, PartialEq, Eq)]
pub struct Numbered {
    pub worth: Option<Worth>,
    pub fault: Option<Found>,
}

/// Whether a condition holds, or none and the fault for which it is none.
#[derive(Clone, Copy, Debug, PartialEq, Eq)]
pub struct Truth {
    pub holds: Option<bool>,
    pub fault: Option<Found>,
}

/// Whether a loop has one variable, which is a genvar.
pub fn is_genvar_loop(frames: &Frames, header: &Loop) -> bool
    ensures { result ≡ has_one_genvar (around frames.now) (view.loop header.now) }
{
    header.variable.text == header.stepped.text && frames.is_genvar(&header.variable.text)
}

/// The worth that a genvar takes from an expression, as a signed variable of 32 bits does.
pub fn genvar_number(alloc: Global, frames: &Frames, e: &Expr) -> Result<Numbered, AllocError>
    ensures { IfOk result (λ n. HasNumber (constants_of frames.now) (view.expr e.now) n.worth n.fault) }
{
    let Evaluated { value, fault, .. } = evaluate(alloc, frames, e)?;
    let worth = taken(value.as_ref());
    Ok(Numbered { worth, fault })
}

fn taken(value: Option<&Known>) -> Option<Worth>
    ensures { option_map plain_worth result ≡ genvar_worth (meant_in value.entry) }
{
    let known = value?;
    let bits = assigned(known, 32);
    Some(Worth::Number(Constant { bits, signed: true }))
}

/// Whether a condition holds.
pub fn condition(alloc: Global, frames: &Frames, e: &Expr) -> Result<Truth, AllocError>
    ensures { IfOk result (λ t. HasTruth (constants_of frames.now) (view.expr e.now) t.holds t.fault) }
{
    let Evaluated { value, fault, .. } = evaluate(alloc, frames, e)?;
    let holds = held(value.as_ref());
    Ok(Truth { holds, fault })
}

fn held(value: Option<&Known>) -> Option<bool>
    ensures { result ≡ truth_in (meant_in value.entry) }
{
    let known = value?;
    Some(holds(known))
}

/// Enters a turn, in which a genvar has a worth.
pub fn enter_turn(
    alloc: Global,
    frames: &mut Frames,
    variable: &Name,
    worth: Worth,
) -> Result<(), AllocError>
    ensures { OnOk result (EntersTurn variable.now.text (plain_worth worth) frames.old frames.new) }
{
    frames.enter(alloc)?;
    frames.declare(alloc, &variable.text, worth)?;
    Ok(())
}
