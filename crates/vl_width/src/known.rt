//! Constant expressions whose context isn't known yet.

ghost use Rattle.std.specs.Prelude.{◌≡◌, ◌≤◌, ◌*◌, ◌-◌, ◌^◌, ◌↔◌, IsTrue, IfOk, map};
ghost use Rattle.std.specs.Option.{option_map};
ghost use Rattle.vl_value.specs.Meaning as meaning;
ghost use Rattle.vl_width.specs.Terms.{branch, meant};
ghost use Rattle.vl_tree.specs.Syntax.{clog2};
ghost use Rattle.vl_width.specs.Objects.{plain_constant};
ghost use Rattle.vl_width.specs.Told.{parameter_of};
ghost use Rattle.vl_width.specs.Known.{braces_within, chosen_among, copies_within, Counts};

use crate::number::Constant;
use crate::operands::{Operands, keeps_context, operands_of};
use crate::size::Size;
use crate::term::{Step, Term};
use bit_ops::{Binary, Unary, binary, concat, unary};
use dt_core::bits::Bits;
use dt_core::limits::MAX_WIDTH;
use sqlite_items::{Boxed, Items};
use std::alloc::{AllocError, Global};

/// A constant expression: its own size, and its value at each size of its context.
#[derive(Drop)]
pub struct Known {
    pub size: Size,
    pub term: Term,
}

/// A condition, and the value where it holds.
#[derive(Drop)]
pub struct Branch {
    pub condition: Known,
    pub value: Known,
}

impl Known {
    /// A number.
    pub fn number(number: Constant) -> Known
        ensures { meant result ≡ meaning.operand number.bits.width number.signed number.bits.value }
    {
        let size = Size {
            width: number.bits.width(),
            signed: number.signed,
        };
        Known {
            size,
            term: Term::Number(number),
        }
    }

    /// Its value at its own size.
    pub fn own(&self) -> Bits
        ensures width { result.width ≡ (meant self.now).width }
        ensures value { result.value ≡ meaning.own (meant self.now) }
    {
        self.term.value(self.size)
    }

    /// The number that it is by itself.
    pub fn constant(&self) -> Constant
        ensures { plain_constant result ≡ parameter_of (meant self.now) }
    {
        Constant {
            bits: self.own(),
            signed: self.size.signed,
        }
    }

    /// Whether it holds as a condition.
    fn is_true(&self) -> bool
        ensures { result ≡ meaning.true_of (meant self.now) }
    {
        self.own().value() != 0
    }

    /// An operator before it.
    pub fn unary(self, alloc: Global, operator: Unary) -> Result<Known, AllocError>
        ensures { IfOk result (λ k. meant k ≡ meaning.unary_of operator (meant self)) }
    {
        if !keeps_context(operator) {
            return Ok(unsigned(unary(operator, self.own())));
        }
        let Known { size, term } = self;
        let operand = Boxed::new(alloc, term)?;
        Ok(Known {
            size,
            term: Term::Unary(operator, operand),
        })
    }

    /// An operator between it and a right operand.
    pub fn binary(self, alloc: Global, operator: Binary, right: Known) -> Result<Known, AllocError>
        ensures { IfOk result (λ k. meant k ≡ meaning.binary_of operator (meant self) (meant right)) }
    {
        match operands_of(operator) {
            Operands::Alike => self.alike(alloc, operator, right),
            Operands::Compared => Ok(unsigned(compared(operator, &self, &right))),
            Operands::Shifted => self.shifted(alloc, operator, &right),
            Operands::Judged => Ok(unsigned(binary(operator, self.own(), right.own(), false))),
        }
    }

    // An operator between operands of the context's size.
    fn alike(self, alloc: Global, operator: Binary, right: Known) -> Result<Known, AllocError>
        ensures { IfOk result (λ k. meant k ≡ meaning.operated meaning.alike operator (meant self) (meant right)) }
    {
        let size = self.size.joint(right.size);
        let term = self.term.then(alloc, Step::Alike(operator, right.term))?;
        Ok(Known { size, term })
    }

    // A shift by what a right operand is by itself.
    fn shifted(self, alloc: Global, operator: Binary, right: &Known) -> Result<Known, AllocError>
        requires { meaning.operands_of operator ≡ meaning.shifted }
        ensures { let m = meaning.operated meaning.shifted operator (meant self) (meant right.now) in
            IfOk result (λ k. meant k ≡ m) }
    {
        let size = self.size;
        let distance = right.own();
        let term = self.term.then(alloc, Step::Shift(operator, distance))?;
        Ok(Known { size, term })
    }

    /// `$clog2` of it.
    pub fn logarithm(&self) -> Known
        ensures { meant result ≡ meaning.system_of clog2 (meant self.now) }
    {
        let bits = Bits::of(32, u128::from(logarithm(self.own())));
        Known::number(Constant { bits, signed: true })
    }

    // The number of copies that it tells, where so many bits may stand side by side.
    fn count(&self) -> Option<u32>
        ensures { Counts (meaning.whole (meant self.now)) result }
    {
        let bits = self.own();
        if self.size.signed && is_high(bits) {
            return None;
        }
        if bits.value() < 1 || bits.value() > u128::from(MAX_WIDTH) {
            return None;
        }
        Some(bits.value() as u32)
    }
}

/// The value of the first branch whose condition holds, or the last value.
pub fn choose(branches: Items<Branch>, last: Known) -> Known
    ensures { meant result ≡ chosen_among (map branch branches) (meant last) }
{
    let mut left = branches;
    let mut other = last;
    while let Some(nearest) = left.pop() {
        let Branch { condition, value } = nearest;
        other = choice(&condition, value, other);
    }
    other
}

// The value where a condition holds, else the other one.
fn choice(condition: &Known, value: Known, other: Known) -> Known
    ensures { meant result ≡ meaning.choice (meant condition.now) (meant value) (meant other) }
{
    let size = value.size.joint(other.size);
    if condition.is_true() {
        Known {
            size,
            term: value.term,
        }
    } else {
        Known {
            size,
            term: other.term,
        }
    }
}

/// The parts side by side; none where they have no bits, or more than a vector may have.
pub fn braces(parts: &[Known]) -> Option<Known>
    ensures { option_map meant result ≡ braces_within (map meant parts.now) }
{
    let (first, rest) = parts.split_first()?;
    let mut joined = first.own();
    for part in rest {
        let next = part.own();
        if joined.width() + next.width() > MAX_WIDTH {
            return None;
        }
        joined = concat(joined, next);
    }
    Some(unsigned(joined))
}

/// So many copies side by side; none where they have no bits, or more than a vector may have.
pub fn copies(count: &Known, part: &Known) -> Option<Known>
    ensures { option_map meant result ≡ copies_within (meaning.whole (meant count.now)) (meant part.now) }
{
    let count = count.count()?;
    let one = part.own();
    if count * one.width() > MAX_WIDTH {
        return None;
    }
    Some(unsigned(repeated(count, one)))
}

// Whether a vector's leftmost bit is 1.
fn is_high(a: Bits) -> bool
    ensures { IsTrue result ↔ (2 ^ (a.width - 1) ≤ a.value) }
{
    a.value() >= 1 << (a.width() - 1)
}

/// So many copies side by side.
pub fn repeated(count: u32, one: Bits) -> Bits
    requires { (1 ≤ count) × (count * one.width ≤ MAX_WIDTH) }
    ensures width { result.width ≡ count * one.width }
    ensures value { result.value ≡ meaning.repeated count one.width one.value }
{
    let mut joined = one;
    let mut done = 1;
    while done < count {
        joined = concat(joined, one);
        done += 1;
    }
    joined
}

// A vector without a sign.
fn unsigned(bits: Bits) -> Known
    ensures { meant result ≡ meaning.unsigned bits.width bits.value }
{
    Known::number(Constant {
        bits,
        signed: false,
    })
}

// What a comparison gives: its operands have the larger of their sizes.
fn compared(operator: Binary, left: &Known, right: &Known) -> Bits
    requires { meaning.operands_of operator ≡ meaning.compared }
    ensures { let m = meaning.operated meaning.compared operator (meant left.now) (meant right.now) in
        meaning.unsigned result.width result.value ≡ m }
{
    let size = left.size.joint(right.size);
    binary(
        operator,
        left.term.value(size),
        right.term.value(size),
        size.signed,
    )
}

/// The least k with 2^k at least the number; 0 for 0.
pub fn logarithm(a: Bits) -> u32
    ensures value { result ≡ meaning.logarithm a.width a.value }
    ensures within { result ≤ a.width }
{
    let mut k = 0;
    while k < a.width() && 1 << k < a.value() {
        k += 1;
    }
    k
}
