//! Paths as keys of a table: each by the number of the one that it goes on from, and its last step.

ghost use Rattle.std.specs.Prelude.{◌≡◌, IfOk};
ghost use Rattle.std.specs.Option.{option_map};
ghost use Rattle.vl_design.specs.Generate.{turn_number};
ghost use Rattle.vl_scopes.specs.Plain.{plain_step};
ghost use Rattle.vl_paths.specs.Keys.{plain_last};

use dt_core::text::Text;
use std::alloc::{AllocError, Global};
use vl_scopes::scope::Step;

/// The last step of a path, with a text of its own and the signed number of a turn.
#[derive(PartialEq, Eq, Hash, Drop)]
pub enum LastStep {
    /// An instance, or a labelled block that is no loop's.
    Named(Text),
    /// A labelled block of a loop, in the turn of this number.
    Turn(Text, i64),
    /// The block of the generate construct of this number, which has no label; in a turn, where that is a loop.
    Unnamed(u32, Option<i64>),
}

/// A path.
#[derive(PartialEq, Eq, Hash, Drop)]
pub enum Key {
    /// That of the top, which has no step.
    Top,
    /// One step on from the path of this number.
    Below(usize, LastStep),
}

/// A step of a scope's path.
pub fn last_step(alloc: Global, step: Step<'_>) -> Result<LastStep, AllocError>
    ensures { let s = plain_step step.entry in IfOk result (λ l. plain_last l ≡ s) }
{
    match step {
        Step::Named(name) => Ok(LastStep::Named(copied(alloc, &name.text)?)),
        Step::Turn(name, turn) => Ok(LastStep::Turn(copied(alloc, &name.text)?, signed(turn))),
        Step::Unnamed(construct, turn) => Ok(LastStep::Unnamed(construct, signed_turn(turn))),
    }
}

fn signed_turn(turn: Option<u32>) -> Option<i64>
    ensures { result ≡ option_map turn_number turn }
{
    match turn {
        Some(number) => Some(signed(number)),
        None => None,
    }
}

// A number of 32 bits with its sign.
fn signed(number: u32) -> i64
    ensures { result ≡ turn_number number }
{
    if number < 0x8000_0000 {
        i64::from(number)
    } else {
        i64::from(number) - 0x1_0000_0000
    }
}

/// A text of its own.
pub fn copied(alloc: Global, name: &Text) -> Result<Text, AllocError>
    ensures { IfOk result (λ t. t ≡ name.now) }
{
    match Text::copied(alloc, name.bytes()) {
        Ok(text) => Ok(text),
        Err(_) => Err(AllocError),
    }
}
