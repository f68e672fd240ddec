//! What a sized expression is worth in a moment.

ghost use Rattle.std.specs.Prelude.{◌≡◌, ◌≤◌, IfOk, None, map, max, if◌then◌else◌};
ghost use Rattle.bit_ops.specs.Applied as applied;
ghost use Rattle.vl_value.specs.Meaning as meaning;
ghost use Rattle.vl_value.specs.Things.{distance, word_place};
ghost use Rattle.vl_width.specs.Objects.{Numbering, plain_shape};
ghost use Rattle.vl_sized.specs.Moments.{Moment, in_sight};
ghost use Rattle.vl_sized.specs.Nodes.{at_of, index_value, source_value, picks, takes_own};
ghost use Rattle.vl_sized.specs.Parts.{index_by, source_by, part_by};
ghost use Rattle.vl_sized.specs.Plain.{meaning_of, run_steps, run_tests};
ghost use Rattle.vl_sized.specs.Wholes.{integer};
ghost use Rattle.vl_sized.specs.Worth.{IsAtSize, IsBeside, IsFirstTrue};

use crate::beside::Beside;
use crate::node::{Case, Index, Node, Part, SizedExpr, SizedNode, Source, Step, Test};
use crate::numbers::{cut_out, extended, low_bits};
use crate::select::whole_size;
use crate::whole::Whole;
use bit_ops::{Binary, binary, unary};
use dt_core::bits::Bits;
use dt_core::limits::MAX_WIDTH;
use std::alloc::{AllocError, Global};
use vl_width::known::logarithm;
use vl_width::number::Constant;
use vl_width::operands::{Operands, operands_of};
use vl_width::shape::Shape;
use vl_width::size::Size;
use vl_width::term::{alike, applied_to, shifted, sized};

/// The numbers that a moment gives.
pub trait Values {
    /// The moment.
    ghost moment: { Self → Moment };
    /// Which objects the numbers tell.
    ghost numbering: { Self → Numbering };

    /// What a net or a variable holds.
    fn signal(&self, number: u32) -> u128
        ensures { result ≡ (moment self.now).word ((numbering self.now).signals number) 0 };

    /// What a variable of a function holds.
    fn local(&self, number: u32) -> u128
        ensures { result ≡ (moment self.now).word ((numbering self.now).locals number) 0 };

    /// What the variable of a function's name holds.
    fn function(&self, number: u32) -> u128
        ensures { result ≡ (moment self.now).word ((numbering self.now).functions number) 0 };

    /// What a memory's word holds, counted from its least index.
    fn word(&self, memory: u32, k: u32) -> u128
        ensures { result ≡ (moment self.now).word ((numbering self.now).memories memory) k };

    /// What a function gives.
    fn call(&self, function: u32, arguments: &[u128]) -> u128
        ensures { result ≡ (moment self.now).calls ((numbering self.now).functions function) arguments.now };
}

/// What a sized expression is worth.
#[cycle(value)]
pub fn value<V: Values>(alloc: Global, values: &V, e: &SizedExpr) -> Result<Bits, AllocError>
    ensures { let m = meaning_of (V.numbering values.now) (V.moment values.now) e.now in
        IfOk result (λ b. (b.width ≡ m.width) × (b.value ≡ meaning.own m)) }
{
    at(alloc, values, &e.node, e.size)
}

// What a node is worth at a size.
#[cycle(value)]
fn at<V: Values>(alloc: Global, values: &V, node: &Node, size: Size) -> Result<Bits, AllocError>
    ensures { IsAtSize result size (at_of (V.numbering values.now) (V.moment values.now) node.now) }
{
    match node {
        Node::Number(number) => Ok(sized(*number, size)),
        Node::Read(shape, source, part) => {
            let number = number_in(alloc, values, source)?;
            read(alloc, values, number, *shape, part, size)
        }
        Node::Call(function, shape, inputs, shapes) => {
            let told = arguments(alloc, values, inputs.as_slice(), shapes.as_slice())?;
            Ok(extended(values.call(*function, told.as_slice()), *shape, size))
        }
        Node::Cast(signed, x) => {
            let bits = value(alloc, values, x.get())?;
            Ok(of_sign(bits, *signed, size))
        }
        Node::Logarithm(x) => {
            let bits = value(alloc, values, x.get())?;
            Ok(of_sign(Bits::of(32, u128::from(logarithm(bits))), true, size))
        }
        Node::Concat(parts) => {
            let parts = together(alloc, values, parts.as_slice())?;
            Ok(low_bits(parts.value, size))
        }
        Node::Copies(count, parts) => {
            let parts = together(alloc, values, parts.as_slice())?;
            Ok(low_bits(parts.copies(*count), size))
        }
        Node::Reduced(operator, x) => {
            let bits = value(alloc, values, x.get())?;
            Ok(low_bits(unary(*operator, bits).value(), size))
        }
        Node::Tests(first, tests) => match tests.as_slice().first() {
            Some(test) => {
                let left = at(alloc, values, first.get(), test.left)?;
                let bit = after_tests(alloc, values, left.value(), tests.as_slice())?;
                Ok(low_bits(bit, size))
            }
            None => at(alloc, values, first.get(), size),
        },
        Node::Unary(operator, operand) => {
            let bits = at(alloc, values, operand.get(), size)?;
            Ok(applied_to(*operator, bits))
        }
        Node::Chain(first, steps) => {
            let bits = at(alloc, values, first.get(), size)?;
            after_steps(alloc, values, bits, steps.as_slice(), size)
        }
        Node::Choose(cases, last) => match first_true(alloc, values, cases.as_slice(), size)? {
            Some(bits) => Ok(bits),
            None => at(alloc, values, last.get(), size),
        },
    }
}

// The number that bits are read of.
#[cycle(value)]
fn number_in<V: Values>(
    alloc: Global,
    values: &V,
    source: &Source<Node>,
) -> Result<u128, AllocError>
    ensures { let ns = V.numbering values.now in let t = V.moment values.now in
        IfOk result (λ n. n ≡ source_value ns t (source_by (at_of ns t) source.now)) }
{
    match source {
        Source::Signal(number) => Ok(values.signal(*number)),
        Source::Local(number) => Ok(values.local(*number)),
        Source::Function(number) => Ok(values.function(*number)),
        Source::Word(memory, first, last, index) => {
            let index = index_of(alloc, values, index)?;
            Ok(word(values, *memory, *first, *last, index))
        }
    }
}

// The word of a memory at an index; 0 where it has none there.
fn word<V: Values>(values: &V, memory: u32, first: u32, last: u32, index: Whole) -> u128
    ensures { let ns = V.numbering values.now in let c = in_sight (λ x. None) (V.moment values.now) in
        result ≡ meaning.word_at c (ns.memories memory) (distance first last) (word_place first last (integer index)) }
{
    let least = u128::from(first.min(last));
    if index.negative || index.size < least {
        return 0;
    }
    let k = index.size - least;
    if k > u128::from(first.abs_diff(last)) {
        return 0;
    }
    values.word(memory, k as u32)
}

// What an index stands for.
#[cycle(value)]
fn index_of<V: Values>(alloc: Global, values: &V, index: &Index<Node>) -> Result<Whole, AllocError>
    ensures { let f = at_of (V.numbering values.now) (V.moment values.now) in
        IfOk result (λ z. integer z ≡ index_value (index_by f index.now)) }
{
    match index {
        Index::Fixed(number) => Ok(Whole::of(*number)),
        Index::Varying(x) => {
            let bits = value(alloc, values, x.get())?;
            let signed = x.get().size.signed;
            Ok(Whole::of(Constant { bits, signed }))
        }
    }
}

// Bits of a vector's number.
#[cycle(value)]
fn read<V: Values>(
    alloc: Global,
    values: &V,
    number: u128,
    shape: Shape,
    part: &Part<Node>,
    size: Size,
) -> Result<Bits, AllocError>
    ensures { let f = at_of (V.numbering values.now) (V.moment values.now) in
        IsAtSize result size (meaning.selected (plain_shape shape) number (picks (part_by f part.now))).at }
{
    match part {
        Part::Whole => Ok(extended(number, shape, size)),
        Part::Upward(index, count) => {
            let from = index_of(alloc, values, index)?.near();
            Ok(cut_out(number, shape, from, *count, size))
        }
        Part::Downward(index, count) => {
            let from = index_of(alloc, values, index)?.down_from(*count);
            Ok(cut_out(number, shape, from, *count, size))
        }
    }
}

// A vector's bits with a sign, at a size.
fn of_sign(bits: Bits, signed: bool, size: Size) -> Bits
    ensures width { result.width ≡ size.width }
    ensures value { result.value ≡ (meaning.operand bits.width signed bits.value).at size.width size.signed }
{
    sized(Constant { bits, signed }, size)
}

// What a function's inputs take.
#[cycle(value)]
fn arguments<V: Values>(
    alloc: Global,
    values: &V,
    inputs: &[SizedExpr],
    shapes: &[Shape],
) -> Result<Vec<u128>, AllocError>
    ensures { let k = meaning_of (V.numbering values.now) (V.moment values.now) in
        IfOk result (λ ns. ns.items ≡ meaning.arguments (map plain_shape shapes.now) (map k inputs.now)) }
{
    let mut told = Vec::new(alloc);
    for (k, input) in inputs.iter().enumerate() {
        let Some(shape) = shapes.get(k) else {
            return Ok(told);
        };
        let target = whole_size(*shape);
        let size = wider(input.size, target.width);
        let bits = at(alloc, values, &input.node, size)?;
        told.push(low_bits(bits.value(), target).value())?;
    }
    Ok(told)
}

// A size of at least so many bits.
fn wider(size: Size, width: u32) -> Size
    requires { width ≤ MAX_WIDTH }
    ensures width { result.width ≡ max size.width width }
    ensures signed { result.signed ≡ size.signed }
{
    Size {
        width: size.width.max(width),
        signed: size.signed,
    }
}

// Parts side by side.
#[cycle(value)]
fn together<V: Values>(alloc: Global, values: &V, parts: &[SizedExpr]) -> Result<Beside, AllocError>
    ensures { let k = meaning_of (V.numbering values.now) (V.moment values.now) in
        IfOk result (λ b. IsBeside b (map k parts.now)) }
{
    let mut all = Beside::none();
    for part in parts {
        let bits = at(alloc, values, &part.node, part.size)?;
        all = all.with(bits);
    }
    Ok(all)
}

// What tests make of a bit, of which the first one takes as many bits as its left operand has.
#[cycle(value)]
fn after_tests<V: Values>(
    alloc: Global,
    values: &V,
    first: u128,
    tests: &[Test<Node>],
) -> Result<u128, AllocError>
    ensures { let k = run_tests (V.numbering values.now) (V.moment values.now) in
        IfOk result (λ n. (meaning.unsigned 1 n).at ≡ k (meaning.unsigned 1 first).at tests.now) }
{
    let mut bit = first;
    for test in tests {
        let size = right_size(test.operator, test.left, test.right.size);
        let right = at(alloc, values, &test.right.node, size)?;
        let left = low_bits(bit, test.left);
        bit = binary(test.operator, left, right, test.left.signed).value();
    }
    Ok(bit)
}

// The size of a test's right operand.
fn right_size(operator: Binary, left: Size, right: Size) -> Size
    ensures { result ≡ (if takes_own (meaning.operands_of operator) then right else left) }
{
    match operands_of(operator) {
        Operands::Alike | Operands::Compared => left,
        Operands::Shifted | Operands::Judged => right,
    }
}

// What steps make of a value of this size.
#[cycle(value)]
fn after_steps<V: Values>(
    alloc: Global,
    values: &V,
    first: Bits,
    steps: &[Step<Node>],
    size: Size,
) -> Result<Bits, AllocError>
    requires { first.width ≡ size.width }
    ensures { let k = run_steps (V.numbering values.now) (V.moment values.now) in
        IsAtSize result size (λ w s. k w s first.value steps.now) }
{
    let mut bits = first;
    for step in steps {
        bits = match step {
            Step::Alike(operator, operand) => {
                let right = at(alloc, values, operand, size)?;
                alike(*operator, bits, right, size.signed)
            }
            Step::Shift(operator, distance) => {
                let right = at(alloc, values, &distance.node, distance.size)?;
                shifted(*operator, bits, right, size.signed)
            }
        };
    }
    Ok(bits)
}

// The value of the first case whose condition holds.
#[cycle(value)]
fn first_true<V: Values>(
    alloc: Global,
    values: &V,
    cases: &[Case<Node>],
    size: Size,
) -> Result<Option<Bits>, AllocError>
    ensures { let f = at_of (V.numbering values.now) (V.moment values.now) in
        IfOk result (λ o. IsFirstTrue f cases.now size o) }
{
    for case in cases {
        let condition = at(alloc, values, &case.condition.node, case.condition.size)?;
        if condition.value() != 0 {
            return Ok(Some(at(alloc, values, &case.value.node, size)?));
        }
    }
    Ok(None)
}
