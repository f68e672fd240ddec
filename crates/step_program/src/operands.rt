//! The slots that a step reads.

ghost use Rattle.std.specs.Prelude.{◌≡◌, ◌↔◌, IsTrue, IfSome};
ghost use Rattle.step_program.specs.Renamed as names;
ghost use Rattle.step_program.specs.Table as table;
ghost use Rattle.step_program.specs.declared.step.Slot.TheVariants as at;

use crate::placement::Placement;
use crate::step::{Calculation, Slot, Step};

/// The slots that a step reads, three at most.
pub(crate) type Slots = [Option<Slot>; 3];

fn one(slot: Slot) -> Slots
    ensures { result ≡ names.one slot }
{
    [Some(slot), None, None]
}

fn two(first: Slot, second: Slot) -> Slots
    ensures { result ≡ names.pair first second }
{
    [Some(first), Some(second), None]
}

fn three(first: Slot, second: Slot, third: Slot) -> Slots
    ensures { result ≡ names.three first second third }
{
    [Some(first), Some(second), Some(third)]
}

fn both(first: u32, second: u32) -> Slots
    ensures { result ≡ names.pair (at.Narrow first) (at.Narrow second) }
{
    two(Slot::Narrow(first), Slot::Narrow(second))
}

// The slots that a calculation reads.
fn of_calculation(of: Calculation) -> Slots
    ensures { result ≡ names.calculation_operands of }
{
    match of {
        Calculation::Constant { .. } => [None, None, None],
        Calculation::Unary { of, .. } => one(of.slot),
        Calculation::Binary { left, right, .. } => two(left.slot, right.slot),
        Calculation::Extend { of, .. } => one(of.slot),
        Calculation::Cut { of } => one(of.slot),
        Calculation::Select { of, place } => two(of.slot, place.of.slot),
        Calculation::Insert { of, place, part } => three(of.slot, place.of.slot, part.slot),
        Calculation::Concat { left, right } => two(left.slot, right.slot),
        Calculation::Choose { condition, yes, no } => three(condition.slot, yes.slot, no.slot),
        Calculation::Word { index, .. } => one(index.of.slot),
    }
}

/// The slots that a step reads.
pub(crate) fn operands(step: &Step) -> Slots
    ensures { result ≡ names.operands step.now }
{
    match *step {
        Step::And(of) => both(of.left, of.right),
        Step::Or(of) => both(of.left, of.right),
        Step::Xor(of) => both(of.left, of.right),
        Step::Pick(of) => three(
            Slot::Narrow(of.condition),
            Slot::Narrow(of.yes),
            Slot::Narrow(of.no),
        ),
        Step::Test(of) => both(of.of, of.like),
        Step::Join(of) => both(of.high, of.low),
        Step::Take(of) => one(Slot::Narrow(of.of)),
        Step::Sum(of) => both(of.left, of.right),
        Step::Rare(of) => of_calculation(of.calculation),
    }
}

// Whether the program has a slot for this one, if it is one.
fn is_set(slot: Option<Slot>, places: &Placement) -> bool
    ensures { IsTrue result ↔ IfSome slot (λ k. table.IsSet places.now k) }
{
    match slot {
        Some(slot) => places.is_set(slot),
        None => true,
    }
}

/// Whether the program has slots for all that a step reads.
pub(crate) fn are_set(step: &Step, places: &Placement) -> bool
    ensures { IsTrue result → names.Reads (table.IsSet places.now) step.now }
{
    let [first, second, third] = operands(step);
    is_set(first, places) && is_set(second, places) && is_set(third, places)
}
