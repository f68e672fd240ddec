//! The turns of a generate loop, one after another (IEEE 1364-2005, 12.4.1).

ghost use Rattle.std.specs.Prelude.{◌≡◌, true, IfOk};
ghost use Rattle.std.specs.Option.{option_map};
ghost use Rattle.vl_tree.specs.SyntaxView as view;
ghost use Rattle.vl_tree.specs.declared.fault.FaultKind.TheVariants.{TooManyTurns};
ghost use Rattle.vl_value.specs.Order.{at};
ghost use Rattle.vl_design.specs.Constants.{worth};
ghost use Rattle.vl_found.specs.View.{found};
ghost use Rattle.vl_frames.specs.Marks.{plain_worth};
ghost use Rattle.vl_constants.specs.Needed.{constants_of};
ghost use Rattle.vl_generate.specs.Turning.{TakesNumber, IsNarrow, IsNumber, TurnsAt, TurnsFrom, TurnsWithin};

use dt_core::bits::Bits;
use dt_core::place::Place;
use std::alloc::{AllocError, Global};
use vl_found::Found;
use vl_frames::frames::Frames;
use vl_frames::mark::Worth;
use vl_tree::expression::Expr;
use vl_tree::fault::FaultKind;
use vl_tree::statement::Loop;
use vl_turns::{condition, enter_turn, genvar_number};
use vl_width::number::Constant;

/// The number of 32 bits that a genvar takes, or the fault for which it takes none.
#[derive(Clone, Copy)]
pub struct Numbered {
    pub number: Option<u32>,
    pub fault: Option<Found>,
}

/// What is next in a loop.
#[derive(Clone, Copy)]
pub enum Turning {
    /// The loop ends, with a fault if it has one.
    End(Option<Found>),
    /// A turn in which the genvar has this number, and what it takes behind it.
    Turn(u32, Numbered),
}

/// The number that a genvar takes from an expression.
pub fn number_by(alloc: Global, frames: &Frames, e: &Expr) -> Result<Numbered, AllocError>
    ensures { IfOk result (λ n. TakesNumber (constants_of frames.now) (view.expr e.now) n.number n.fault) }
{
    let taken = genvar_number(alloc, frames, e)?;
    Ok(Numbered {
        number: number_of(taken.worth),
        fault: taken.fault,
    })
}

// A worth of 32 bits as a number.
fn number_of(worth: Option<Worth>) -> Option<u32>
    ensures { IsNumber (option_map plain_worth worth) result }
{
    match worth {
        Some(Worth::Number(constant)) => narrowed(constant.bits),
        Some(Worth::Faulty) => None,
        None => None,
    }
}

// A value of at most 32 bits.
fn narrowed(bits: Bits) -> Option<u32>
    ensures { IsNarrow bits.width bits.value result }
{
    let value = bits.value();
    if value > u128::from(u32::MAX) {
        return None;
    }
    Some(value as u32)
}

// What a genvar is worth at a number.
fn worth_of(number: u32) -> Worth
    ensures { plain_worth result ≡ worth 32 true number }
{
    Worth::Number(Constant {
        bits: Bits::of(32, u128::from(number)),
        signed: true,
    })
}

/// What is next in a loop whose `for` stands at a place, where its genvar takes this number and so many turns more may be made. A turn is
/// entered; where the loop ends, the names in sight stay.
pub fn next_turn(
    alloc: Global,
    frames: &mut Frames,
    place: Place,
    header: &Loop,
    taken: Numbered,
    left: u32,
) -> Result<Turning, AllocError>
    ensures { let l = view.loop header.now in
        IfOk result (λ t. TurnsFrom (view.place place) l left taken frames.old frames.new t) }
{
    match taken.number {
        Some(number) => {
            let turning = turn_at(alloc, frames, place, header, number, left)?;
            Ok(turning)
        }
        None => Ok(Turning::End(taken.fault)),
    }
}

// The turn of a number, where the condition holds in it.
fn turn_at(
    alloc: Global,
    frames: &mut Frames,
    place: Place,
    header: &Loop,
    number: u32,
    left: u32,
) -> Result<Turning, AllocError>
    ensures { let l = view.loop header.now in let p = view.place place in
        IfOk result (λ t. TurnsAt p l left number frames.old frames.new t) }
{
    enter_turn(alloc, frames, &header.variable, worth_of(number))?;
    let truth = condition(alloc, frames, &header.condition)?;
    match truth.holds {
        Some(true) => {
            let turning = turn_within(alloc, frames, place, header, number, left)?;
            Ok(turning)
        }
        Some(false) => {
            frames.leave();
            Ok(Turning::End(None))
        }
        None => {
            frames.leave();
            Ok(Turning::End(truth.fault))
        }
    }
}

// A turn that is entered, whose condition holds: it is one of too many, and left, or it is made.
fn turn_within(
    alloc: Global,
    frames: &mut Frames,
    place: Place,
    header: &Loop,
    number: u32,
    left: u32,
) -> Result<Turning, AllocError>
    ensures { let l = view.loop header.now in let p = view.place place in
        IfOk result (λ t. TurnsWithin p l left number frames.old frames.new t) }
{
    if left == 0 {
        frames.leave();
        return Ok(Turning::End(Some(too_many(place))));
    }
    let following = number_by(alloc, frames, &header.step)?;
    Ok(Turning::Turn(number, following))
}

// TooManyTurns at a place.
fn too_many(place: Place) -> Found
    ensures { found result ≡ at (view.place place) TooManyTurns }
{
    Found {
        place,
        kind: FaultKind::TooManyTurns,
    }
}
