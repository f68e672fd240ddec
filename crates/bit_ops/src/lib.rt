//! Operators on bit vectors of 1 to `MAX_WIDTH` bits, and on numbers of such a width.
//!
//! Below: `dt_core` (`Bits`). Above: what evaluates expressions, once for constants and in each cycle of a run.
//! Promise: each call gives the width and the value that `specs/Applied` and `specs/Operators` define on whole numbers: a value is a
//! number modulo 2^width, a signed one is read in two's complement. No call takes memory.
//! `laws` says what follows over all widths and values: division is truncated, an extension keeps the number, bits that were put in are
//! read back and those beside them stay, `concat` and `select` undo each other.
//! Not said: how long a call takes.
#![tactic(auto)]

ghost use Rattle.std.specs.Prelude.{◌≡◌, ◌≤◌, ◌+◌, true};
ghost use Rattle.bit_ops.specs.Applied as applied;
ghost use Rattle.bit_ops.specs.Operators as ops;

mod arithmetic;
mod compare;
pub mod laws;
pub mod numbers;
pub mod operator;
mod places;
mod reduce;
mod shifts;

use arithmetic::{difference, negated, product, quotient, remainder, sum};
use compare::{is_at_most, is_less};
use dt_core::bits::Bits;
use dt_core::limits::MAX_WIDTH;
pub use numbers::{add, low};
use numbers::{cut, turned};
pub use operator::{Binary, Unary};
use places::{inserted, joined, selected};
use reduce::{holds, is_all_ones, is_odd};
use shifts::{shift_left, shift_right};

/// The vector at a larger width: extended by its sign where it is signed, else by zeros.
pub fn extend(a: Bits, width: u32, signed: bool) -> Bits
    requires { (a.width ≤ width) × (width ≤ MAX_WIDTH) }
    ensures width { result.width ≡ width }
    ensures value { result.value ≡ ops.extend signed a.width width a.value }
{
    Bits::of(width, numbers::extend(a.value(), a.width(), width, signed))
}

/// The low `width` bits.
pub fn cut_to(a: Bits, width: u32) -> Bits
    requires { (1 ≤ width) × (width ≤ a.width) }
    ensures width { result.width ≡ width }
    ensures value { result.value ≡ ops.low width a.value }
{
    Bits::of(width, cut(a.value(), width))
}

/// What an operator on one operand gives. A reduction and `!` give one bit.
pub fn unary(op: Unary, a: Bits) -> Bits
    ensures width { result.width ≡ applied.unary_width op a.width }
    ensures value { result.value ≡ applied.unary op a.width a.value }
{
    let width = a.width();
    match op {
        Unary::Plus => a,
        Unary::Minus => Bits::of(width, negated(a.value(), width)),
        Unary::Not => Bits::of(width, turned(a.value(), width, true)),
        Unary::LogicNot => bit(!holds(a)),
        Unary::And => bit(is_all_ones(a)),
        Unary::Nand => bit(!is_all_ones(a)),
        Unary::Or => bit(holds(a)),
        Unary::Nor => bit(!holds(a)),
        Unary::Xor => bit(is_odd(a)),
        Unary::Xnor => bit(!is_odd(a)),
    }
}

/// What an operator on two operands gives; `signed` where both are. The operands have the same width, but for a shift, whose second
/// operand is a distance, and for the logical operators. A comparison and a logical operator give one bit.
pub fn binary(op: Binary, a: Bits, b: Bits, signed: bool) -> Bits
    requires { applied.takes_one_width op ≡ true → a.width ≡ b.width }
    ensures width { result.width ≡ applied.binary_width op a.width }
    ensures value { result.value ≡ applied.binary op signed a.width a.value b.value }
{
    let width = a.width();
    let (x, y) = (a.value(), b.value());
    match op {
        Binary::Mul => Bits::of(width, product(x, y, width)),
        Binary::Div => Bits::of(width, quotient(x, y, width, signed)),
        Binary::Rem => Bits::of(width, remainder(x, y, width, signed)),
        Binary::Add => Bits::of(width, sum(x, y, width)),
        Binary::Sub => Bits::of(width, difference(x, y, width)),
        Binary::Shl => Bits::of(width, shift_left(x, y, width)),
        Binary::Shr => Bits::of(width, shift_right(x, y, width, false)),
        Binary::Sar if signed => Bits::of(width, shift_right(x, y, width, true)),
        Binary::Sar => Bits::of(width, shift_right(x, y, width, false)),
        Binary::Lt => bit(is_less(x, y, width, signed)),
        Binary::Le => bit(is_at_most(x, y, width, signed)),
        Binary::Gt => bit(is_less(y, x, width, signed)),
        Binary::Ge => bit(is_at_most(y, x, width, signed)),
        Binary::Eq => bit(x == y),
        Binary::Ne => bit(x != y),
        Binary::And => Bits::of(width, x & y),
        Binary::Xor => Bits::of(width, x ^ y),
        Binary::Xnor => Bits::of(width, turned(x ^ y, width, true)),
        Binary::Or => Bits::of(width, x | y),
        Binary::LogicAnd => bit(holds(a) && holds(b)),
        Binary::LogicOr => bit(holds(a) || holds(b)),
    }
}

/// The `width` bits from `place` upward, wherever that is; 0 at places outside of the vector.
pub fn select(a: Bits, place: i64, width: u32) -> Bits
    requires { (1 ≤ width) × (width ≤ MAX_WIDTH) }
    ensures width { result.width ≡ width }
    ensures value { result.value ≡ ops.select place width a.value }
{
    Bits::of(width, selected(a.value(), place, width))
}

/// The vector with the part's bits from `place` upward, wherever that is; those that fall outside are lost.
pub fn insert(a: Bits, place: i64, part: Bits) -> Bits
    ensures width { result.width ≡ a.width }
    ensures value { result.value ≡ ops.insert a.width place part.width part.value a.value }
{
    let width = a.width();
    Bits::of(
        width,
        inserted(a.value(), width, place, part.value(), part.width()),
    )
}

/// `high` to the left of `low`.
pub fn concat(high: Bits, low: Bits) -> Bits
    requires { high.width + low.width ≤ MAX_WIDTH }
    ensures width { result.width ≡ high.width + low.width }
    ensures value { result.value ≡ ops.concat low.width high.value low.value }
{
    Bits::of(
        high.width() + low.width(),
        joined(high.value(), high.width(), low.value(), low.width()),
    )
}

// One bit: 1 where the test holds.
fn bit(test: bool) -> Bits
    ensures width { result.width ≡ 1 }
    ensures value { result.value ≡ ops.bit test }
{
    Bits::of(1, u128::from(test))
}
