//! Fast steps in place of calculations.

ghost use Rattle.std.specs.Prelude.{◌≡◌, ◌≤◌, false, IfSome};
ghost use Rattle.step_program.specs.Fits.{IsWidth};
ghost use Rattle.bit_ops.specs.declared.operator.Unary.TheVariants as one;
ghost use Rattle.bit_ops.specs.declared.operator.Binary.TheVariants as op;
ghost use Rattle.step_program.specs.declared.step.Calculation.TheVariants as calc;
ghost use Rattle.step_program.specs.declared.step.Slot.TheVariants as at;
ghost use Rattle.net_compile.specs.Quick.{IsQuick};

use bit_ops::{Binary, Unary};
use step_program::step::{
    Calculation, Join, Operand, Pick, Rare, Slot, Step, Sum, Take, Test, Two,
};

// The number of a narrow slot.
fn narrow(of: Operand) -> Option<u32>
    ensures { IfSome result (λ k. of.slot ≡ at.Narrow k) }
{
    match of.slot {
        Slot::Narrow(number) => Some(number),
        Slot::Wide(_) => None,
    }
}

// Two narrow slots.
fn two(left: Operand, right: Operand) -> Option<Two>
    ensures { IfSome result (λ t. (left.slot ≡ at.Narrow t.left) × (right.slot ≡ at.Narrow t.right)) }
{
    Some(Two {
        left: narrow(left)?,
        right: narrow(right)?,
    })
}

// The fast step of an operator on two operands.
fn quick_binary(
    width: u32,
    operator: Binary,
    signed: bool,
    left: Operand,
    right: Operand,
) -> Option<Step>
    requires { (1 ≤ width) × (width ≤ 64) }
    ensures { IfSome result (λ s. IsQuick width (calc.Binary operator signed left right) s) }
{
    let two = two(left, right)?;
    match operator {
        Binary::And => Some(quick_and(width, signed, left, right, two)),
        Binary::Or => Some(quick_or(width, signed, left, right, two)),
        Binary::Xor => Some(Step::Xor(two)),
        Binary::Add => Some(Step::Sum(Sum::modulo(two.left, two.right, width))),
        Binary::Eq => Some(Step::Test(Test::same(two.left, two.right))),
        Binary::Ne => Some(Step::Test(Test::differ(two.left, two.right))),
        Binary::LogicAnd => quick_both(width, signed, left, right, two),
        Binary::LogicOr => quick_either(width, signed, left, right, two),
        _ => None,
    }
}

// Whether both of two bits are 1, as a choice: a run of steps of one kind is long where there are few kinds.
fn both_bits(of: Two) -> Pick
    ensures { result ≡ record { condition = of.left; yes = of.right; no = of.left } }
{
    Pick {
        condition: of.left,
        yes: of.right,
        no: of.left,
    }
}

// Whether one of two bits is 1, in the same way.
fn either_bit(of: Two) -> Pick
    ensures { result ≡ record { condition = of.left; yes = of.left; no = of.right } }
{
    Pick {
        condition: of.left,
        yes: of.left,
        no: of.right,
    }
}

// The fast step of `&` on two operands.
fn quick_and(width: u32, signed: bool, left: Operand, right: Operand, two: Two) -> Step
    requires width { (1 ≤ width) × (width ≤ 64) }
    requires slots { (left.slot ≡ at.Narrow two.left) × (right.slot ≡ at.Narrow two.right) }
    ensures { IsQuick width (calc.Binary op.And signed left right) result }
{
    if width == 1 {
        return Step::Pick(both_bits(two));
    }
    Step::And(two)
}

// The fast step of `|` on two operands.
fn quick_or(width: u32, signed: bool, left: Operand, right: Operand, two: Two) -> Step
    requires width { (1 ≤ width) × (width ≤ 64) }
    requires slots { (left.slot ≡ at.Narrow two.left) × (right.slot ≡ at.Narrow two.right) }
    ensures { IsQuick width (calc.Binary op.Or signed left right) result }
{
    if width == 1 {
        return Step::Pick(either_bit(two));
    }
    Step::Or(two)
}

// The fast step of `&&` on two operands of one bit.
fn quick_both(width: u32, signed: bool, left: Operand, right: Operand, two: Two) -> Option<Step>
    requires width { (1 ≤ width) × (width ≤ 64) }
    requires slots { (left.slot ≡ at.Narrow two.left) × (right.slot ≡ at.Narrow two.right) }
    ensures { IfSome result (λ s. IsQuick width (calc.Binary op.LogicAnd signed left right) s) }
{
    if left.width != 1 {
        return None;
    }
    if right.width != 1 {
        return None;
    }
    Some(Step::Pick(both_bits(two)))
}

// The fast step of `||` on two operands of one bit.
fn quick_either(width: u32, signed: bool, left: Operand, right: Operand, two: Two) -> Option<Step>
    requires width { (1 ≤ width) × (width ≤ 64) }
    requires slots { (left.slot ≡ at.Narrow two.left) × (right.slot ≡ at.Narrow two.right) }
    ensures { IfSome result (λ s. IsQuick width (calc.Binary op.LogicOr signed left right) s) }
{
    if left.width != 1 {
        return None;
    }
    if right.width != 1 {
        return None;
    }
    Some(Step::Pick(either_bit(two)))
}

// Whether a narrow slot holds 0, or whether it doesn't: the mask leaves no bit of it, and so 0, which is what it has
// where it is 0.
fn zero_test(of: u32, differs: bool) -> Test
    ensures { result ≡ record { of = of; like = of; mask = 0; differs = differs } }
{
    Test {
        of,
        like: of,
        mask: 0,
        differs,
    }
}

// The fast step of `~` on one bit.
fn quick_not(width: u32, of: Operand, number: u32) -> Option<Step>
    requires width { (1 ≤ width) × (width ≤ 64) }
    requires number { of.slot ≡ at.Narrow number }
    ensures { IfSome result (λ s. IsQuick width (calc.Unary one.Not of) s) }
{
    if of.width != 1 {
        return None;
    }
    Some(Step::Test(zero_test(number, false)))
}

// The fast step of an operator on one operand.
fn quick_unary(width: u32, operator: Unary, of: Operand) -> Option<Step>
    requires { (1 ≤ width) × (width ≤ 64) }
    ensures { IfSome result (λ s. IsQuick width (calc.Unary operator of) s) }
{
    let number = narrow(of)?;
    match operator {
        Unary::LogicNot => Some(Step::Test(zero_test(number, false))),
        Unary::Nor => Some(Step::Test(zero_test(number, false))),
        Unary::Or => Some(Step::Test(zero_test(number, true))),
        Unary::Not => quick_not(width, of, number),
        _ => None,
    }
}

// The fast step of a choice.
fn quick_choice(width: u32, condition: Operand, yes: Operand, no: Operand) -> Option<Step>
    requires { (1 ≤ width) × (width ≤ 64) }
    ensures { IfSome result (λ s. IsQuick width (calc.Choose condition yes no) s) }
{
    let two = two(yes, no)?;
    Some(Step::Pick(Pick {
        condition: narrow(condition)?,
        yes: two.left,
        no: two.right,
    }))
}

// The fast step of two operands side by side.
fn quick_join(width: u32, left: Operand, right: Operand) -> Option<Step>
    requires { (1 ≤ width) × (width ≤ 64) }
    ensures { IfSome result (λ s. IsQuick width (calc.Concat left right) s) }
{
    let two = two(left, right)?;
    if right.width < 64 {
        return Some(Step::Join(Join::to_left(two.left, two.right, right.width)));
    }
    None
}

// The fast step of the low bits.
fn quick_cut(width: u32, of: Operand) -> Option<Step>
    requires { (1 ≤ width) × (width ≤ 64) }
    ensures { IfSome result (λ s. IsQuick width (calc.Cut of) s) }
{
    Some(Step::Take(Take::bits(narrow(of)?, 0, width)))
}

// The fast step of an operand at a larger width.
fn quick_extend(width: u32, of: Operand) -> Option<Step>
    requires { (1 ≤ width) × (width ≤ 64) }
    ensures { IfSome result (λ s. IsQuick width (calc.Extend false of) s) }
{
    Some(Step::Take(Take::bits(narrow(of)?, 0, width)))
}

// The fast step of a calculation at a width.
fn quick(width: u32, calculation: Calculation) -> Option<Step>
    requires { IsWidth width }
    ensures { IfSome result (λ s. IsQuick width calculation s) }
{
    if width > 64 {
        return None;
    }
    match calculation {
        Calculation::Binary {
            operator,
            signed,
            left,
            right,
        } => quick_binary(width, operator, signed, left, right),
        Calculation::Unary { operator, of } => quick_unary(width, operator, of),
        Calculation::Choose { condition, yes, no } => quick_choice(width, condition, yes, no),
        Calculation::Concat { left, right } => quick_join(width, left, right),
        Calculation::Cut { of } => quick_cut(width, of),
        Calculation::Extend { signed: false, of } => quick_extend(width, of),
        _ => None,
    }
}

/// The step of a calculation at a width: a fast one, where there is one.
pub(crate) fn step_of(width: u32, calculation: Calculation) -> Step
    requires { IsWidth width }
    ensures { IsQuick width calculation result }
{
    match quick(width, calculation) {
        Some(step) => step,
        None => Step::Rare(Rare { width, calculation }),
    }
}
