//! The value of a constant expression at each size of its context.

ghost use Rattle.std.specs.Prelude.{◌≡◌, ◌&&◌, IfOk};
ghost use Rattle.bit_ops.specs.Applied as applied;
ghost use Rattle.bit_ops.specs.Operators as ops;
ghost use Rattle.vl_width.specs.Terms.{at_of, run_terms, shift_at, number_at, chain_at, then_step, IsTerm};

use crate::number::Constant;
use crate::size::{Size, both_signed};
use bit_ops::{Binary, Unary, binary, cut_to, extend, unary};
use dt_core::bits::Bits;
use dt_core::limits::MAX_WIDTH;
use sqlite_items::{Boxed, Items};
use std::alloc::{AllocError, Global};

/// The value of a constant expression at each size of its context.
#[derive(Drop)]
pub enum Term {
    /// A number, extended by its sign where the context is signed too.
    Number(Constant),
    /// `+`, `-` or `~` before an operand of the context's size.
    Unary(Unary, Boxed<Term>),
    /// A first operand, and what is done to it from left to right.
    Chain(Boxed<Term>, Items<Step<Term>>),
}

/// What is done to a value at a size.
#[derive(Drop)]
pub enum Step<T> {
    /// An operator with its right operand, which has the same size.
    Alike(Binary, T),
    /// A shift by a distance.
    Shift(Binary, Bits),
}

impl Term {
    /// The value at a size.
    #[cycle(value)]
    pub fn value(&self, size: Size) -> Bits
        ensures width { result.width ≡ size.width }
        ensures value { result.value ≡ at_of self.now size.width size.signed }
    {
        match self {
            Term::Number(number) => sized(*number, size),
            Term::Unary(operator, operand) => applied_to(*operator, operand.get().value(size)),
            Term::Chain(first, steps) => after(first.get().value(size), steps.as_slice(), size),
        }
    }

    /// The value with one step more.
    pub fn then(self, alloc: Global, step: Step<Term>) -> Result<Term, AllocError>
        ensures { IsTerm result (then_step (at_of self) step) }
    {
        match self {
            Term::Chain(first, steps) => pushed(first, steps, step),
            other => {
                let first = Boxed::new(alloc, other)?;
                pushed(first, Items::new(alloc), step)
            }
        }
    }
}

// A chain with one step more.
fn pushed(
    first: Boxed<Term>,
    steps: Items<Step<Term>>,
    step: Step<Term>,
) -> Result<Term, AllocError>
    ensures { IsTerm result (then_step (chain_at (at_of first) steps) step) }
{
    let mut steps = steps;
    steps.push(step)?;
    Ok(Term::Chain(first, steps))
}

// What the steps make of a value of this size.
#[cycle(value)]
fn after(first: Bits, steps: &[Step<Term>], size: Size) -> Bits
    requires { first.width ≡ size.width }
    ensures width { result.width ≡ size.width }
    ensures value { result.value ≡ run_terms size.width size.signed first.value steps.now }
{
    let mut value = first;
    for step in steps {
        value = match step {
            Step::Alike(operator, operand) => {
                alike(*operator, value, operand.value(size), size.signed)
            }
            Step::Shift(operator, distance) => shifted(*operator, value, *distance, size.signed),
        };
    }
    value
}

/// A number at another size.
pub fn sized(number: Constant, size: Size) -> Bits
    ensures width { result.width ≡ size.width }
    ensures value { result.value ≡ number_at number size.width size.signed }
{
    let signed = both_signed(number.signed, size.signed);
    cut_to(extend(number.bits, MAX_WIDTH, signed), size.width)
}

/// What an operator makes of a value of its width, at that width.
pub fn applied_to(operator: Unary, a: Bits) -> Bits
    ensures width { result.width ≡ a.width }
    ensures value { result.value ≡ applied.unary operator a.width a.value }
{
    Bits::of(a.width(), unary(operator, a).value())
}

/// What an operator makes of two values of its width, at that width.
pub fn alike(operator: Binary, a: Bits, b: Bits, signed: bool) -> Bits
    requires { a.width ≡ b.width }
    ensures width { result.width ≡ a.width }
    ensures value { result.value ≡ applied.binary operator signed a.width a.value b.value }
{
    Bits::of(a.width(), binary(operator, a, b, signed).value())
}

/// A value shifted by a distance; what is no shift does nothing.
pub fn shifted(operator: Binary, a: Bits, distance: Bits, signed: bool) -> Bits
    ensures width { result.width ≡ a.width }
    ensures value { result.value ≡ shift_at operator signed a.width a.value distance.value }
{
    match operator {
        Binary::Shl | Binary::Shr | Binary::Sar => binary(operator, a, distance, signed),
        _ => a,
    }
}
