//! Steps that a builder has already. Of rare steps only constants are looked for.

ghost use Rattle.std.specs.Prelude.{◌≡◌, IfSome, IsTrue};
ghost use Rattle.step_program.specs.Arranging as arranging;

use crate::entry::Entry;
use crate::step::{Calculation, Rare, Slot, Step};
use std::collections::HashMap;

// Whether both are the same constant.
fn same_constant(first: &Rare, second: &Rare) -> bool
    ensures { IsTrue result → first.now ≡ second.now }
{
    match first.calculation {
        Calculation::Constant { value } => match second.calculation {
            Calculation::Constant { value: other } => first.width == second.width && value == other,
            _ => false,
        },
        _ => false,
    }
}

// Whether both are the same step of one of four kinds.
fn same_gate(first: &Step, second: &Step) -> bool
    ensures { IsTrue result → first.now ≡ second.now }
{
    match first {
        Step::And(one) => match second {
            Step::And(other) => one == other,
            _ => false,
        },
        Step::Or(one) => match second {
            Step::Or(other) => one == other,
            _ => false,
        },
        Step::Xor(one) => match second {
            Step::Xor(other) => one == other,
            _ => false,
        },
        Step::Pick(one) => match second {
            Step::Pick(other) => one == other,
            _ => false,
        },
        _ => false,
    }
}

// The same of five others.
fn same_word(first: &Step, second: &Step) -> bool
    ensures { IsTrue result → first.now ≡ second.now }
{
    match first {
        Step::Test(one) => match second {
            Step::Test(other) => one == other,
            _ => false,
        },
        Step::Join(one) => match second {
            Step::Join(other) => one == other,
            _ => false,
        },
        Step::Take(one) => match second {
            Step::Take(other) => one == other,
            _ => false,
        },
        Step::Sum(one) => match second {
            Step::Sum(other) => one == other,
            _ => false,
        },
        Step::Rare(one) => match second {
            Step::Rare(other) => same_constant(one, other),
            _ => false,
        },
        _ => false,
    }
}

/// The slot of an equal step, if the numbers lead to one.
pub(crate) fn found(
    known: &HashMap<u64, u32>,
    entries: &[Entry],
    key: u64,
    step: &Step,
) -> Option<Slot>
    ensures { IfSome result (λ slot. arranging.IsAmong entries.now step.now slot) }
{
    let index = *known.get(&key)?;
    let entry = entries.get(index as usize)?;
    if is_same(&entry.step, step) {
        Some(entry.slot)
    } else {
        None
    }
}

// Whether both are the same step; false also of rare steps that are no constants.
fn is_same(first: &Step, second: &Step) -> bool
    ensures { IsTrue result → first.now ≡ second.now }
{
    same_gate(first, second) || same_word(first, second)
}
