//! Steps that read steps and constants: a program that runs more than once, and equal steps in one slot.

ghost use Rattle.std.specs.Prelude.{◌≡◌, ◌<◌, IfSome, IfOk};
ghost use Rattle.step_program.specs.Draft as draft;
ghost use Rattle.step_program.specs.declared.step.Slot.TheVariants as at;

use std::alloc::Global;
use std::test::Fail;
use step_program::Closed;
use step_program::builder::Builder;
use step_program::step::{Slot, Step, Sum, Two};

// A program, and the slots of (x + y) % 256 and of its bits in 12.
#[derive(Drop)]
struct Chain {
    closed: Closed,
    sum: Slot,
    masked: Slot,
}

// The number of a narrow slot.
fn number(slot: Slot) -> Option<u32>
    ensures { IfSome result (λ n. slot ≡ at.Narrow n) }
{
    match slot {
        Slot::Narrow(number) => Some(number),
        Slot::Wide(_) => None,
    }
}

// The bits of a slot in a constant.
fn mask(builder: &mut Builder, of: Slot) -> Result<Slot, Fail>
    requires { draft.IsPlaced builder.old of }
{
    let twelve = builder.constant(8, 12)?;
    let left = number(of).ok_or("wide")?;
    let right = number(twelve).ok_or("wide")?;
    Ok(builder.push(Step::And(Two { left, right }))?)
}

fn built(alloc: Global) -> Result<Chain, Fail> {
    let mut builder = Builder::new(alloc, 2, 0)?;
    let sum = builder.push(Step::Sum(Sum::modulo(0, 1, 8)))?;
    let masked = mask(&mut builder, sum)?;
    let closed = builder.close(alloc)?;
    Ok(Chain {
        closed,
        sum,
        masked,
    })
}

// The sum, and its bits in 12, where these numbers are given.
static ROWS: [(u64, u64, u128, u128); 4] = [
    (200, 100, 44, 12),
    (0, 0, 0, 0),
    (255, 1, 0, 0),
    (5, 9, 14, 12),
];

#[test]
fn a_program_runs_again(rt: HostRuntime) -> Result<(), Fail> {
    let chain = built(rt.alloc())?;
    let program = &chain.closed.program;
    let mut slots = program.start(rt.alloc())?;
    for (x, y, sum, masked) in &ROWS {
        program.give_narrow(&mut slots, 0, *x);
        program.give_narrow(&mut slots, 1, *y);
        program.run(&[], &mut slots);
        let place = &chain.closed.placement;
        assert_eq!(rt; slots.value(place.slot(chain.sum)), *sum);
        assert_eq!(rt; slots.value(place.slot(chain.masked)), *masked);
    }
    Ok(())
}

#[test]
fn equal_steps_have_one_slot(rt: HostRuntime) -> Result<(), Fail> {
    let mut builder = Builder::new(rt.alloc(), 2, 0)?;
    let first = builder.push(Step::Or(Two { left: 0, right: 1 }))?;
    let five = builder.constant(8, 5)?;
    let wide = builder.constant(9, 5)?;
    let second = builder.push(Step::Or(Two { left: 0, right: 1 }))?;
    let other = builder.push(Step::Or(Two { left: 1, right: 0 }))?;
    let again = builder.constant(8, 5)?;
    assert_eq!(rt; number(first), number(second));
    assert_eq!(rt; number(five), number(again));
    assert_ne!(rt; number(first), number(other));
    assert_ne!(rt; number(five), number(wide));
    Ok(())
}
