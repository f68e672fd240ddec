//! Sized expressions of their parts.

ghost use Rattle.std.specs.Prelude.{◌≡◌, ◌≤◌, ◌*◌, ◌++◌, map, max, false};
ghost use Rattle.vl_tree.specs.SyntaxView.{system_function};
ghost use Rattle.vl_value.specs.Meaning as meaning;
ghost use Rattle.vl_width.specs.Objects.{Numbering};
ghost use Rattle.vl_sized.specs.Moments.{constant_sense, on_one, on_two, on_all};
ghost use Rattle.vl_sized.specs.Sensed.{chosen_among};
ghost use Rattle.vl_sized.specs.Nodes.{at_of, reads_of};
ghost use Rattle.vl_sized.specs.Plain.{sense_of, case_of, Makes, IsWorth, Reads, width_together, widest_of, all_signed};
ghost use Rattle.vl_sized.specs.Plain.{after_step, chain_at, after_test, run_tests};
ghost use Rattle.vl_sized.specs.Plain.{step_reading, chain_reading, tests_reading};

use crate::node::{Case, Node, SizedExpr, SizedNode, Step, Test};
use bit_ops::{Binary, Unary};
use dt_core::limits::MAX_WIDTH;
use sqlite_items::{Boxed, Items};
use std::alloc::{AllocError, Global};
use vl_tree::expression::SystemFunction;
use vl_width::number::Constant;
use vl_width::operands::{Operands, keeps_context, operands_of};
use vl_width::size::Size;

// One bit.
fn bit() -> Size
    ensures width { result.width ≡ 1 }
    ensures signed { result.signed ≡ false }
{
    Size {
        width: 1,
        signed: false,
    }
}

/// A number.
pub fn number(number: Constant) -> SizedExpr
    ensures { let b = number.bits in
        (ns : Numbering) → sense_of ns result ≡ constant_sense (meaning.operand b.width number.signed b.value) }
{
    let size = Size {
        width: number.bits.width(),
        signed: number.signed,
    };
    SizedNode {
        size,
        node: Node::Number(number),
    }
}

/// An operator before an operand.
pub fn unary(alloc: Global, operator: Unary, a: SizedExpr) -> Result<SizedExpr, AllocError>
    ensures { Makes result (λ ns. on_one (meaning.unary_of operator) (sense_of ns a)) }
{
    if !keeps_context(operator) {
        let node = Node::Reduced(operator, Boxed::new(alloc, a)?);
        return Ok(SizedNode { size: bit(), node });
    }
    let SizedNode { size, node } = a;
    let operand = Boxed::new(alloc, node)?;
    Ok(SizedNode {
        size,
        node: Node::Unary(operator, operand),
    })
}

/// A function of the language.
pub fn system(
    alloc: Global,
    function: SystemFunction,
    a: SizedExpr,
) -> Result<SizedExpr, AllocError>
    ensures { Makes result (λ ns. on_one (meaning.system_of (system_function function)) (sense_of ns a)) }
{
    match function {
        SystemFunction::ToSigned => cast(alloc, true, a),
        SystemFunction::ToUnsigned => cast(alloc, false, a),
        SystemFunction::Clog2 => {
            let size = Size {
                width: 32,
                signed: true,
            };
            let node = Node::Logarithm(Boxed::new(alloc, a)?);
            Ok(SizedNode { size, node })
        }
    }
}

// The same bits with another sign.
fn cast(alloc: Global, signed: bool, a: SizedExpr) -> Result<SizedExpr, AllocError>
    ensures { Makes result (λ ns. on_one (λ x. meaning.operand x.width signed (meaning.own x)) (sense_of ns a)) }
{
    let size = Size {
        width: a.size.width,
        signed,
    };
    let node = Node::Cast(signed, Boxed::new(alloc, a)?);
    Ok(SizedNode { size, node })
}

/// An operator between two operands.
pub fn binary(
    alloc: Global,
    operator: Binary,
    a: SizedExpr,
    b: SizedExpr,
) -> Result<SizedExpr, AllocError>
    ensures { Makes result (λ ns. on_two (meaning.binary_of operator) (sense_of ns a) (sense_of ns b)) }
{
    match operands_of(operator) {
        Operands::Alike => alike(alloc, operator, a, b),
        Operands::Shifted => shifted(alloc, operator, a, b),
        Operands::Compared => compared(alloc, operator, a, b),
        Operands::Judged => conditions(alloc, operator, a, b),
    }
}

// Both operands have the size of the node.
fn alike(
    alloc: Global,
    operator: Binary,
    a: SizedExpr,
    b: SizedExpr,
) -> Result<SizedExpr, AllocError>
    ensures { let f = meaning.operated meaning.alike operator in
        Makes result (λ ns. on_two f (sense_of ns a) (sense_of ns b)) }
{
    let size = a.size.joint(b.size);
    let node = then(alloc, a.node, Step::Alike(operator, b.node))?;
    Ok(SizedNode { size, node })
}

// The left operand has the size of the node.
fn shifted(
    alloc: Global,
    operator: Binary,
    a: SizedExpr,
    b: SizedExpr,
) -> Result<SizedExpr, AllocError>
    requires { meaning.operands_of operator ≡ meaning.shifted }
    ensures { let f = meaning.operated meaning.shifted operator in
        Makes result (λ ns. on_two f (sense_of ns a) (sense_of ns b)) }
{
    let SizedNode { size, node } = a;
    let node = then(alloc, node, Step::Shift(operator, b))?;
    Ok(SizedNode { size, node })
}

// Both operands have the larger of their sizes.
fn compared(
    alloc: Global,
    operator: Binary,
    a: SizedExpr,
    b: SizedExpr,
) -> Result<SizedExpr, AllocError>
    requires { meaning.operands_of operator ≡ meaning.compared }
    ensures { let f = meaning.operated meaning.compared operator in
        Makes result (λ ns. on_two f (sense_of ns a) (sense_of ns b)) }
{
    let left = a.size.joint(b.size);
    let right = SizedNode {
        size: left,
        node: b.node,
    };
    let test = Test {
        operator,
        left,
        right,
    };
    let node = test_after(alloc, a.node, test)?;
    Ok(SizedNode { size: bit(), node })
}

// Each operand has its own size.
fn conditions(
    alloc: Global,
    operator: Binary,
    a: SizedExpr,
    b: SizedExpr,
) -> Result<SizedExpr, AllocError>
    requires { meaning.operands_of operator ≡ meaning.judged }
    ensures { let f = meaning.operated meaning.judged operator in
        Makes result (λ ns. on_two f (sense_of ns a) (sense_of ns b)) }
{
    let SizedNode { size, node } = a;
    let test = Test {
        operator,
        left: size,
        right: b,
    };
    let node = test_after(alloc, node, test)?;
    Ok(SizedNode { size: bit(), node })
}

// A node with one step more.
fn then(alloc: Global, node: Node, step: Step<Node>) -> Result<Node, AllocError>
    ensures value { IsWorth result (λ ns t. after_step ns t (at_of ns t node) step) }
    ensures reads { Reads result (λ ns. reads_of ns node ++ step_reading ns step) }
{
    match node {
        Node::Chain(first, steps) => step_pushed(first, steps, step),
        other => {
            let first = Boxed::new(alloc, other)?;
            step_pushed(first, Items::new(alloc), step)
        }
    }
}

fn step_pushed(
    first: Boxed<Node>,
    steps: Items<Step<Node>>,
    step: Step<Node>,
) -> Result<Node, AllocError>
    ensures value { IsWorth result (λ ns t. after_step ns t (chain_at ns t first steps) step) }
    ensures reads { Reads result (λ ns. chain_reading ns first steps ++ step_reading ns step) }
{
    let mut steps = steps;
    steps.push(step)?;
    Ok(Node::Chain(first, steps))
}

// A node with one test more.
fn test_after(alloc: Global, node: Node, test: Test<Node>) -> Result<Node, AllocError>
    ensures value { IsWorth result (λ ns t. after_test ns t (at_of ns t node) test) }
    ensures reads { Reads result (λ ns. reads_of ns node ++ reads_of ns test.right.node) }
{
    match node {
        Node::Tests(first, tests) => test_pushed(first, tests, test),
        other => {
            let first = Boxed::new(alloc, other)?;
            test_pushed(first, Items::new(alloc), test)
        }
    }
}

fn test_pushed(
    first: Boxed<Node>,
    tests: Items<Test<Node>>,
    test: Test<Node>,
) -> Result<Node, AllocError>
    ensures value { IsWorth result (λ ns t. after_test ns t (run_tests ns t (at_of ns t first) tests) test) }
    ensures reads { Reads result (λ ns. tests_reading ns first tests ++ reads_of ns test.right.node) }
{
    let mut tests = tests;
    tests.push(test)?;
    Ok(Node::Tests(first, tests))
}

/// The value of the first case whose condition holds, or the last value.
pub fn choose(
    alloc: Global,
    cases: Items<Case<Node>>,
    last: SizedExpr,
) -> Result<SizedExpr, AllocError>
    ensures { Makes result (λ ns. chosen_among (map (case_of ns) cases) (sense_of ns last)) }
{
    let size = widest(cases.as_slice(), last.size);
    let last = Boxed::new(alloc, last.node)?;
    Ok(SizedNode {
        size,
        node: Node::Choose(cases, last),
    })
}

// The largest width of the cases' values and of a last one, signed where all are.
fn widest(cases: &[Case<Node>], last: Size) -> Size
    ensures width { result.width ≡ widest_of cases.now last.width }
    ensures signed { result.signed ≡ all_signed cases.now last.signed }
{
    let mut size = last;
    for case in cases {
        size = case.value.size.joint(size);
    }
    size
}

/// Parts side by side, which have so many bits together.
pub fn braces(parts: Items<SizedExpr>, width: u32) -> SizedExpr
    requires range { (1 ≤ width) × (width ≤ MAX_WIDTH) }
    requires width { width ≡ width_together parts }
    ensures { (ns : Numbering) → sense_of ns result ≡ on_all meaning.braces (map (sense_of ns) parts) }
{
    let size = Size {
        width,
        signed: false,
    };
    SizedNode {
        size,
        node: Node::Concat(parts),
    }
}

/// So many copies of parts side by side, which have so many bits together.
pub fn repeated(count: u32, parts: Items<SizedExpr>, width: u32) -> SizedExpr
    requires range { (1 ≤ width) × (width ≤ MAX_WIDTH) }
    requires width { width ≡ count * width_together parts }
    ensures { let f = λ (ms : _). meaning.copies count (meaning.braces ms) in
        (ns : Numbering) → sense_of ns result ≡ on_all f (map (sense_of ns) parts) }
{
    let size = Size {
        width,
        signed: false,
    };
    SizedNode {
        size,
        node: Node::Copies(count, parts),
    }
}

impl SizedNode<Node> {
    /// The same at a larger width.
    pub fn at_least(self, width: u32) -> SizedExpr
        requires { width ≤ MAX_WIDTH }
        ensures width { result.size.width ≡ max self.size.width width }
        ensures signed { result.size.signed ≡ self.size.signed }
        ensures node { result.node ≡ self.node }
    {
        let SizedNode { size, node } = self;
        SizedNode {
            size: Size {
                width: size.width.max(width),
                signed: size.signed,
            },
            node,
        }
    }
}
